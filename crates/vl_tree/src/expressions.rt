// Expressions of nets and constants, and delays.
use crate::Name;
use sg_text::Place;
use sg_time::Decimal;
use vl_token::Constant;

/// The bits of a name that are meant: `"[" int "]"`, or `"[" int ":" int "]"`.
#[derive(Clone, Copy, Debug, PartialEq)]
pub enum Select {
    Bit(i64),
    Part { left: i64, right: i64 },
}

/// `name [ "[" int "]" | "[" int ":" int "]" ] | sized | "{" expression { "," expression } "}"`
#[derive(Debug, Drop)]
pub enum Expression<'a> {
    Signal {
        name: Name<'a>,
        select: Option<Select>,
    },
    Sized {
        place: Place,
        value: Constant<'a>,
    },
    Concatenation {
        place: Place,
        parts: Vec<Expression<'a>>,
    },
}

/// `number [ ":" number ":" number ]`: a number for all corners, or one for each.
#[derive(Clone, Copy, Debug, PartialEq)]
pub enum MinTypMax {
    One(Decimal),
    Three {
        min: Decimal,
        typ: Decimal,
        max: Decimal,
    },
}

/// `"#" number | "#" "(" mtm [ "," mtm [ "," mtm ] ] ")"`: one to three delays. Parentheses round a number leave no trace.
#[derive(Debug, Drop)]
pub struct Delay {
    pub place: Place,
    pub values: Vec<MinTypMax>,
}
