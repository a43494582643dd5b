//! Rules of a grammar: what tokens say, how a reader with one token of lookahead reads them, and the laws of both.
#![tactic(auto)]

ghost use Rattle.std.specs.Prelude.{◌≡◌};
ghost use Rattle.grammar.specs.Exact.{Exact};
ghost use Rattle.grammar.specs.Laws.{BeginsAlone, OneFailingToken, OneTree, PrefixClosed, ReadsItsLanguage, SpelledOrFailing};
ghost use Rattle.grammar.specs.Rule.{Rule};
ghost use Rattle.grammar.specs.declared.ReadFault.TheVariants.{Memory};

use std::alloc::{AllocError, AllocFailed};
use thiserror::Error;

/// Why nothing was read.
#[derive(Clone, Copy, Debug, PartialEq, Eq, Error)]
pub enum ReadFault {
    /// Memory ran out.
    #[error("no memory")]
    Memory,
    /// The position of the failing token, the number of tokens before it.
    #[error("token {0} fails")]
    At(usize),
}

impl From<AllocError> for ReadFault {
    ghost from_gives = { λ _ e. e ≡ Memory };

    fn from(_: AllocError) -> ReadFault {
        ReadFault::Memory
    }
}

impl<T: Drop> From<AllocFailed<T>> for ReadFault {
    ghost from_gives = { λ _ e. e ≡ Memory };

    fn from(_: AllocFailed<T>) -> ReadFault {
        ReadFault::Memory
    }
}

/// A rule of a grammar over tokens, their kinds and its trees, with the witness that it is read exactly.
pub trait Grammar {
    ghost Token: { Type 0 };

    ghost Kind: { Type 0 };

    ghost Tree: { Type 0 };

    ghost kind: { Token → Kind };

    ghost rule: { Rule Token Kind Tree };

    ghost exact: { Exact kind rule };
}

/// All tokens are read as a tree exactly where they spell it, and refused at a token exactly where it fails.
pub fn reads_its_language<G: Grammar>()
    ensures { ReadsItsLanguage G.rule }
{}

/// All tokens spell one tree at most.
pub fn one_tree<G: Grammar>()
    ensures { OneTree G.rule.language }
{}

/// All tokens spell a tree, or there is a failing token.
pub fn spelled_or_failing<G: Grammar>()
    ensures { SpelledOrFailing G.rule.language }
{}

/// There is one failing token at most, and it is the first one: fewer tokens begin the rule, and more don't.
pub fn one_failing_token<G: Grammar>()
    ensures { OneFailingToken G.rule.language }
{}

/// A front of what begins a rule begins it.
pub fn prefix_closed<G: Grammar>()
    ensures { PrefixClosed G.rule.language }
{}

/// Whether tokens begin a rule depends on those tokens alone, and not on what follows.
pub fn begins_alone<G: Grammar>()
    ensures { BeginsAlone G.rule.language }
{}
