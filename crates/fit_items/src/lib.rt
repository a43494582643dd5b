//! What the tokens of a module say, statement by statement, in a wider Verilog than the netlists that are taken.
#![tactic(auto)]

mod declared;
mod gates;
mod heads;
mod items;
mod lists;
mod modules;
mod nets;
mod numbers;
mod readers;
mod signs;
mod specify;
mod splitting;
mod statements;
mod wishes;

pub use fit_spans::{
    Edit, Span, add_edits, edit_of, is_plain_name, joined, joined_text, piece_of, push_name,
    push_token, span_of, span_of_all, text_of,
};
pub use items::{
    Connection, Declared, Direction, HeadPort, Instance, Item, ItemKind, Module, Run, Side,
    SpecifyKind, SpecifyPart,
};
pub use lists::{closing_of, comma_pieces, pieces_between, tokens_of, without_parens};
pub use modules::read_module;
pub use nets::{Nets, nets_of};
pub use numbers::{range_of, whole_number};
pub use readers::Reader;
pub use signs::{is_keyword, is_name, is_one_of, is_symbol, name_at, name_of, part_name};
pub use wishes::Wishes;
