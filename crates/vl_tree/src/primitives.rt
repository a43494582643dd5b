// User-defined primitives.
use crate::Name;
use sg_logic::Value;
use sg_text::Place;
use udp_rows::RawRow;

/// A declaration of a primitive.
#[derive(Debug, Drop)]
pub enum PrimitiveDeclaration<'a> {
    /// `"output" [ "reg" ] name ";"`
    Output {
        place: Place,
        register: bool,
        name: Name<'a>,
    },
    /// `"reg" name ";"`
    Register {
        place: Place,
        name: Name<'a>,
    },
    /// `"input" names ";"`
    Inputs {
        place: Place,
        names: Vec<Name<'a>>,
    },
}

/// `"initial" name "=" ( "0" | "1" | 1-bit sized, not z ) ";"`
#[derive(Clone, Copy, Debug, PartialEq)]
pub struct Initial<'a> {
    pub place: Place,
    pub name: Name<'a>,
    pub value: Value,
}

/// `"primitive" name "(" names ")" ";" { declaration } [ initial ] "table" { row } "endtable" "endprimitive"`
#[derive(Debug, Drop)]
pub struct Primitive<'a> {
    pub place: Place,
    pub name: Name<'a>,
    pub ports: Vec<Name<'a>>,
    pub declarations: Vec<PrimitiveDeclaration<'a>>,
    pub initial: Option<Initial<'a>>,
    pub rows: Vec<RawRow>,
}
