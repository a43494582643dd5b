//! The syntax tree of netlists: one type for each rule of their grammar (IEEE 1364-2005, annex A), and the
//! grammar.
#![tactic(auto)]

mod check_names;
mod checks;
mod expressions;
mod items;
mod modules;
mod names;
mod paths;
mod primitives;
mod specify;

pub use check_names::{CheckName, OneLimitCheck, TwoLimitCheck, check_of};
pub use checks::{Check, Event};
pub use expressions::{Delay, Expression, MinTypMax, Select};
pub use items::{Connections, GateInstance, Instance, Item, Join, NamedConnection, NetName};
pub use modules::{Head, HeadPort, Module, Part, PortDeclaration, Source};
pub use names::{Direction, Name, NetType, Range, Supply, is_pulse_text};
pub use paths::{
    Arrow, DataSource, Destination, EdgePair, EdgeWord, PathCondition, Polarity, SpecifyPath,
};
pub use primitives::{Initial, Primitive, PrimitiveDeclaration};
pub use specify::{
    Amount, Amounts, Limit, PulseStyle, SignedAmount, SpecifyBlock, SpecifyItem, Specparam, Term,
    Word,
};
pub use udp_rows::UdpKind;
