// Modules, and the whole of a netlist.
use crate::{Direction, Item, Name, NetType, Primitive, Range};
use sg_text::Place;
use vl_token::Mark;

/// `direction [ "wire" | "tri" ] [ range ] name`
#[derive(Clone, Copy, Debug, PartialEq)]
pub struct PortDeclaration<'a> {
    pub place: Place,
    pub direction: Direction,
    pub net: Option<NetType>,
    pub range: Option<Range>,
    pub name: Name<'a>,
}

/// `port-declaration | name`: a name alone is declared as the port before it.
#[derive(Clone, Copy, Debug, PartialEq)]
pub enum HeadPort<'a> {
    Declaration(PortDeclaration<'a>),
    Name(Name<'a>),
}

/// `names | port-declaration { "," head-port }`
#[derive(Debug, Drop)]
pub enum Head<'a> {
    Names(Vec<Name<'a>>),
    Declarations {
        first: PortDeclaration<'a>,
        rest: Vec<HeadPort<'a>>,
    },
}

/// `( "module" | "macromodule" ) name [ "(" [ head ] ")" ] ";" { item } "endmodule"`
#[derive(Debug, Drop)]
pub struct Module<'a> {
    pub place: Place,
    pub mark: Mark,
    pub name: Name<'a>,
    pub head: Option<Option<Head<'a>>>,
    pub items: Vec<Item<'a>>,
}

/// `module | primitive`
#[derive(Debug, Drop)]
pub enum Part<'a> {
    Module(Module<'a>),
    Primitive(Primitive<'a>),
}

/// `{ module | primitive }`
#[derive(Debug, Drop)]
pub struct Source<'a> {
    pub parts: Vec<Part<'a>>,
}
