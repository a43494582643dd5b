// What stands in a module's specify blocks.
use vl_tree::{Check, MinTypMax, Name, PulseStyle, SpecifyPath, Term};

/// A specparam with a value (IEEE 1364-2005, 4.10.3).
#[derive(Clone, Copy, Debug, PartialEq)]
pub struct Parameter<'a> {
    pub name: Name<'a>,
    pub value: MinTypMax,
}

/// Limits of pulses, as a specparam gives them (IEEE 1364-2005, 14.6.1).
#[derive(Clone, Copy, Debug, PartialEq)]
pub struct Pulse<'a> {
    pub name: Name<'a>,
    pub reject: MinTypMax,
    pub error: Option<MinTypMax>,
}

/// A choice of pulse style for terms (IEEE 1364-2005, 14.6.4).
#[derive(Clone, Copy, Debug)]
pub struct StyleText<'t, 'a> {
    pub style: PulseStyle,
    pub terms: &'t [Term<'a>],
}

/// What stands in the specify blocks of a module; each list is in text order (IEEE 1364-2005, 14.1).
#[derive(Drop)]
pub struct BlockItems<'t, 'a> {
    pub parameters: Vec<Parameter<'a>>,
    pub pulses: Vec<Pulse<'a>>,
    pub paths: Vec<&'t SpecifyPath<'a>>,
    pub styles: Vec<StyleText<'t, 'a>>,
    pub checks: Vec<&'t Check<'a>>,
}
