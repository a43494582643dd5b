// Names, and what declarations say beside them.
ghost use Rattle.std.specs.Prelude.{◌≡◌};
ghost use Rattle.vl_tree.specs.Kinds.{is_pulse_text};

use sg_text::Place;

/// A name, as the files have it: an escaped name without its backslash.
#[derive(Clone, Copy, Debug, PartialEq)]
pub struct Name<'a> {
    pub text: &'a [u8],
    pub place: Place,
}

/// `"[" int ":" int "]"`: the numbers of the bits, from the left one to the right one.
#[derive(Clone, Copy, Debug, PartialEq)]
pub struct Range {
    pub place: Place,
    pub left: i64,
    pub right: i64,
}

/// `"input" | "output"`
#[derive(Clone, Copy, Debug, PartialEq)]
pub enum Direction {
    Input,
    Output,
}

/// `"wire" | "tri"`
#[derive(Clone, Copy, Debug, PartialEq)]
pub enum NetType {
    Wire,
    Tri,
}

/// `"supply0" | "supply1"`
#[derive(Clone, Copy, Debug, PartialEq)]
pub enum Supply {
    Zero,
    One,
}

/// Whether a name is one of pulse limits, which is a name nowhere else (IEEE 1364-2005, 14.6.1).
#[tactic(auto, unfolding(crate::specs::Kinds::pulse_front))]
pub fn is_pulse_text(text: &[u8]) -> bool
    ensures { result ≡ is_pulse_text text.now }
{
    text.starts_with("PATHPULSE$".as_bytes())
}
