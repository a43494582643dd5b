// Specify blocks and their items, and what the items are made of.
use crate::{Check, MinTypMax, Name, Select, SpecifyPath};
use cond_expr::Tok;
use sg_text::Place;
use sg_time::Decimal;

/// `name [ "[" int "]" | "[" int ":" int "]" ]`: a net, a bit of it, or several.
#[derive(Clone, Copy, Debug)]
pub struct Term<'a> {
    pub name: Name<'a>,
    pub select: Option<Select>,
}

/// A word of a condition, whose name is a part of the files. The tokens of its words are a condition by the grammar of the crate
/// `cond_expr`.
#[derive(Debug, Drop)]
pub struct Word<'a> {
    pub place: Place,
    pub token: Tok<&'a [u8]>,
}

/// `number | name`: a number, or a specparam's name.
#[derive(Clone, Copy, Debug)]
pub enum Amount<'a> {
    Number { place: Place, value: Decimal },
    Parameter(Name<'a>),
}

/// `amount [ ":" amount ":" amount ]`: an amount for all corners, or one for each.
#[derive(Clone, Copy, Debug)]
pub enum Amounts<'a> {
    One(Amount<'a>),
    Three {
        min: Amount<'a>,
        typ: Amount<'a>,
        max: Amount<'a>,
    },
}

/// `[ "-" ] amount`
#[derive(Clone, Copy, Debug)]
pub struct SignedAmount<'a> {
    pub negative: bool,
    pub amount: Amount<'a>,
}

/// `[ "-" ] amount [ ":" [ "-" ] amount ":" [ "-" ] amount ]`: the limit of a timing check.
#[derive(Clone, Copy, Debug)]
pub enum Limit<'a> {
    One(SignedAmount<'a>),
    Three {
        min: SignedAmount<'a>,
        typ: SignedAmount<'a>,
        max: SignedAmount<'a>,
    },
}

/// A declared value of a specify block (IEEE 1364-2005, 4.10.3 and 14.6.1).
#[derive(Clone, Copy, Debug)]
pub enum Specparam<'a> {
    /// `name "=" mtm`
    Value {
        name: Name<'a>,
        value: MinTypMax,
    },
    /// `pulse-name "=" "(" mtm [ "," mtm ] ")"`: the reject limit of pulses, and their error limit.
    PulseLimits {
        name: Name<'a>,
        reject: MinTypMax,
        error: Option<MinTypMax>,
    },
}

/// What becomes of pulses that are cut short (IEEE 1364-2005, 14.6.4).
#[derive(Clone, Copy, Debug, PartialEq, Eq)]
pub enum PulseStyle {
    /// `pulsestyle_onevent`
    OnEvent,
    /// `pulsestyle_ondetect`
    OnDetect,
    /// `noshowcancelled`
    NoShowCancelled,
}

/// An item of a specify block.
#[derive(Debug, Drop)]
pub enum SpecifyItem<'a> {
    /// `"specparam" specparam { "," specparam } ";"`
    Specparams {
        place: Place,
        parameters: Vec<Specparam<'a>>,
    },
    /// `path ";"`
    Path(SpecifyPath<'a>),
    /// `pulse-style term { "," term } ";"`
    PulseStyle {
        place: Place,
        style: PulseStyle,
        terms: Vec<Term<'a>>,
    },
    /// `check ";"`
    Check(Check<'a>),
}

/// `"specify" { item } "endspecify"`
#[derive(Debug, Drop)]
pub struct SpecifyBlock<'a> {
    pub place: Place,
    pub items: Vec<SpecifyItem<'a>>,
}
