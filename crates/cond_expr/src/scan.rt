// The first token with which no condition begins.
ghost use Rattle.std.specs.Prelude.{◌≡◌, ◌<◌, ◌^◌, Some};
ghost use Rattle.cond_expr.specs.Kinds.{kind_of, index_kind};
ghost use Rattle.cond_expr.specs.ScanSteps.{step};
ghost use Rattle.cond_expr.specs.WordStates.{allows, may_end};
ghost use Rattle.cond_expr.specs.Grammar.{FirstFault};

use crate::operators::{may_prefix, precedence_of};
use crate::tokens::Tok;
use sg_text::Text;

/// What may stand next: a part, a name's index or what follows a part, or only what follows a part.
#[derive(Clone, Copy, Debug, PartialEq, Eq)]
pub enum Phase {
    Operand,
    Name,
    Whole,
}

/// The parentheses that are open and the phase after a token, if it may stand where it does.
pub fn after<N>(unclosed: u64, phase: Phase, token: &Tok<N>) -> Option<(u64, Phase)>
    requires { unclosed < 2 ^ 63 }
    ensures { result ≡ step unclosed phase (kind_of token.now) }
{
    match (phase, token) {
        (Phase::Operand, Tok::Name(_)) => Some((unclosed, Phase::Name)),
        (Phase::Operand, Tok::Const(_)) => Some((unclosed, Phase::Whole)),
        (Phase::Operand, Tok::Left) => Some((unclosed + 1, Phase::Operand)),
        (Phase::Operand, Tok::Op(op)) if may_prefix(*op) => Some((unclosed, Phase::Operand)),
        (Phase::Name, Tok::Index(_)) => Some((unclosed, Phase::Whole)),
        (Phase::Name | Phase::Whole, Tok::Right) if unclosed > 0 => Some((
            unclosed - 1,
            Phase::Whole,
        )),
        (Phase::Name | Phase::Whole, Tok::Op(op)) if precedence_of(*op) > 0 => Some((
            unclosed,
            Phase::Operand,
        )),
        _ => None,
    }
}

/// Whether an index may stand next.
pub fn takes_index(unclosed: u64, phase: Phase) -> bool
    ensures { result ≡ allows (Some (unclosed, phase)) index_kind }
{
    match phase {
        Phase::Name => true,
        Phase::Operand | Phase::Whole => false,
    }
}

/// Whether a condition may end.
pub fn ended(unclosed: u64, phase: Phase) -> bool
    ensures { result ≡ may_end (Some (unclosed, phase)) }
{
    match phase {
        Phase::Operand => false,
        Phase::Name | Phase::Whole => unclosed == 0,
    }
}

/// None where the tokens are a condition of any depth, else the first token with which no condition begins, or their number
/// where all begin one. Takes no memory.
pub fn first_fault(tokens: &[Tok<Text>]) -> Option<u64>
    ensures { FirstFault tokens.now result }
{
    let mut unclosed = 0u64;
    let mut phase = Phase::Operand;
    for (i, token) in tokens.iter().enumerate() {
        match after(unclosed, phase, token) {
            None => return Some(i as u64),
            Some((open, next)) => {
                unclosed = open;
                phase = next;
            }
        }
    }
    if unclosed == 0 && phase != Phase::Operand {
        None
    } else {
        Some(tokens.len() as u64)
    }
}
