// The items of modules.
use crate::{Delay, Direction, Expression, Name, NetType, Range, SpecifyBlock, Supply};
use sg_logic::GateKind;
use sg_text::Place;

/// `name [ "=" expression ]`
#[derive(Debug, Drop)]
pub struct NetName<'a> {
    pub name: Name<'a>,
    pub value: Option<Expression<'a>>,
}

/// `expression "=" expression`
#[derive(Debug, Drop)]
pub struct Join<'a> {
    pub place: Place,
    pub left: Expression<'a>,
    pub right: Expression<'a>,
}

/// `[ name ] "(" expression { "," expression } ")"`
#[derive(Debug, Drop)]
pub struct GateInstance<'a> {
    pub place: Place,
    pub name: Option<Name<'a>>,
    pub terminals: Vec<Expression<'a>>,
}

/// `"." name "(" [ expression ] ")"`
#[derive(Debug, Drop)]
pub struct NamedConnection<'a> {
    pub place: Place,
    pub port: Name<'a>,
    pub value: Option<Expression<'a>>,
}

/// `[ expression ] { "," [ expression ] } | named { "," named }`. `()` has no connection by order.
#[derive(Debug, Drop)]
pub enum Connections<'a> {
    Ordered(Vec<Option<Expression<'a>>>),
    Named(Vec<NamedConnection<'a>>),
}

/// `[ name ] "(" [ connections ] ")"`: an instance of a module or a primitive.
#[derive(Debug, Drop)]
pub struct Instance<'a> {
    pub place: Place,
    pub name: Option<Name<'a>>,
    pub connections: Connections<'a>,
}

/// An item of a module.
#[derive(Debug, Drop)]
pub enum Item<'a> {
    /// `direction [ "wire" | "tri" ] [ range ] names ";"`
    Ports {
        place: Place,
        direction: Direction,
        net: Option<NetType>,
        range: Option<Range>,
        names: Vec<Name<'a>>,
    },
    /// `( "wire" | "tri" ) [ range ] net-name { "," net-name } ";"`
    Nets {
        place: Place,
        net: NetType,
        range: Option<Range>,
        names: Vec<NetName<'a>>,
    },
    /// `( "supply0" | "supply1" ) [ range ] names ";"`
    Supplies {
        place: Place,
        supply: Supply,
        range: Option<Range>,
        names: Vec<Name<'a>>,
    },
    /// `"reg" names ";"`
    Registers {
        place: Place,
        names: Vec<Name<'a>>,
    },
    /// `"assign" join { "," join } ";"`
    Assigns {
        place: Place,
        joins: Vec<Join<'a>>,
    },
    /// `gate [ delay ] gate-instance { "," gate-instance } ";"`
    Gates {
        place: Place,
        gate: GateKind,
        delay: Option<Delay>,
        instances: Vec<GateInstance<'a>>,
    },
    /// `name [ delay ] instance { "," instance } ";"`
    Instances {
        module: Name<'a>,
        delay: Option<Delay>,
        instances: Vec<Instance<'a>>,
    },
    /// `"specify" { specify-item } "endspecify"`
    Specify(SpecifyBlock<'a>),
}
