// Expressions over bits.
ghost use Rattle.std.specs.Prelude.{◌≡◌, ◌+◌, IfOk, max};
ghost use Rattle.fit_gates.specs.Terms.{view, width};

use sg_logic::Value;
use sg_text::NoMemory;

/// One bit that stands in an expression, or at a gate.
#[derive(Clone, Copy)]
pub enum Operand {
    Constant(Value),
    /// A bit of a net: the place of the net's name in a list of names, and the bit's index, if the net has several.
    Net { name: usize, index: Option<i64> },
    /// The output of a gate, by the gate's place in a list of gates.
    Wire(usize),
}

/// An operator between the bits of one operand (IEEE 1364-2005, 5.1.11). `!` is `Nor` (5.1.9).
#[derive(Clone, Copy)]
pub enum Reduction {
    And,
    Nand,
    Or,
    Nor,
    Xor,
    Xnor,
}

/// An operator between bits of the same place (IEEE 1364-2005, 5.1.10).
#[derive(Clone, Copy)]
pub enum Bitwise {
    And,
    Or,
    Xor,
    Xnor,
}

/// `&&` or `||` (IEEE 1364-2005, 5.1.9).
#[derive(Clone, Copy)]
pub enum Logical {
    And,
    Or,
}

/// An expression (IEEE 1364-2005, clause 5.1). Bits stand in it with the rightmost first.
#[derive(Drop)]
pub enum Term {
    Bits(Vec<Operand>),
    /// `~`
    Inverted(Box<Term>),
    Reduced {
        op: Reduction,
        part: Box<Term>,
    },
    Bitwise {
        op: Bitwise,
        left: Box<Term>,
        right: Box<Term>,
    },
    Logical {
        op: Logical,
        left: Box<Term>,
        right: Box<Term>,
    },
    /// `==`, or else `!=`.
    Compared {
        equal: bool,
        left: Box<Term>,
        right: Box<Term>,
    },
    /// `===`, or else `!==`, with these bits of which none is x or z.
    Matched {
        equal: bool,
        part: Box<Term>,
        bits: Vec<bool>,
    },
    /// `condition ? one : other`
    Choice {
        condition: Box<Term>,
        one: Box<Term>,
        other: Box<Term>,
    },
    /// The part where the condition is this, else z: `condition ? part : 1'bz` or `condition ? 1'bz : part`.
    Gated {
        at: bool,
        condition: Box<Term>,
        part: Box<Term>,
    },
    /// `{left, right}`
    Joined {
        left: Box<Term>,
        right: Box<Term>,
    },
}

pub(crate) fn greater(one: usize, other: usize) -> usize
    ensures { result ≡ max one other }
{
    if one < other { other } else { one }
}

pub(crate) fn sum(one: usize, other: usize) -> Result<usize, NoMemory>
    ensures { IfOk result (λ n. n ≡ one + other) }
{
    match one.checked_add(other) {
        Some(sum) => Ok(sum),
        None => Err(NoMemory),
    }
}

impl Term {
    /// How many bits it has where nothing asks for more (IEEE 1364-2005, 5.4.1). `NoMemory` where there are 2^64 of them.
    pub fn width(&self) -> Result<usize, NoMemory>
        ensures { IfOk result (λ n. n ≡ width (view self.now)) }
    {
        match self {
            Term::Bits(bits) => Ok(bits.len()),
            Term::Inverted(part) => part.width(),
            Term::Reduced { .. } => Ok(1),
            Term::Bitwise { left, right, .. } => Ok(greater(left.width()?, right.width()?)),
            Term::Logical { .. } => Ok(1),
            Term::Compared { .. } => Ok(1),
            Term::Matched { .. } => Ok(1),
            Term::Choice { one, other, .. } => Ok(greater(one.width()?, other.width()?)),
            Term::Gated { part, .. } => part.width(),
            Term::Joined { left, right } => sum(left.width()?, right.width()?),
        }
    }
}
