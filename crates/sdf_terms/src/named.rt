// Words of the grammar that name something: an edge, a timing check, a construct.
ghost use Rattle.std.specs.Prelude.{◌≡◌, Option, is_some, map, slice_get};
ghost use Rattle.grammar.specs.Reading.{Gives};
ghost use Rattle.grammar.specs.Rule.{stands};
ghost use Rattle.sdf_lex.specs.Seen.{lexeme};
ghost use Rattle.sdf_tree.specs.declared.keywords.Keyword.{Keyword as Word};
ghost use Rattle.sdf_tree.specs.Kinds as kinds;
ghost use Rattle.sdf_tree.specs.Kinds.{kind_of};
ghost use Rattle.sdf_tree.specs.Rules as rules;
ghost use Rattle.sdf_terms.specs.Tokens.{found, named_there, word_there};

use crate::tokens::keyword_at;
use grammar::ReadFault;
use sdf_lex::Token;
use sdf_tree::{Edge, Keyword, PairCheck, SingleCheck, Skipped, WindowCheck};

/// What some words of the grammar name.
pub trait Names {
    type Value: Copy;

    ghost names: { Word → Option Self.Value };

    // what stands for a word that names nothing
    ghost other: { Self.Value };

    fn of(word: Keyword) -> Option<Self::Value>
        ensures { result ≡ names word };
}

// What the word there names.
fn named_word<N: Names>(tokens: &[Token<'_>], at: usize) -> Option<N::Value>
    ensures { result ≡ named_there N.names (word_there (slice_get (map lexeme tokens.now) at)) }
{
    match keyword_at(tokens, at) {
        Some(word) => N::of(word),
        None => None,
    }
}

/// What the word there names, if it names something.
pub fn named_at<N: Names>(tokens: &[Token<'_>], at: usize) -> Option<N::Value>
    ensures read { (rules.token (λ t. kinds.names N.names N.other t.meaning) (kinds.is_word_that (λ w. is_some (N.names w)))).read (map lexeme tokens.now) at ≡ found result at }
    ensures stands { stands kind_of (kinds.is_word_that (λ w. is_some (N.names w))) (map lexeme tokens.now) at ≡ is_some result }
{
    named_word::<N>(tokens, at)
}

/// What the word there names, and the position behind it.
pub fn named<N: Names>(tokens: &[Token<'_>], at: usize) -> Result<(N::Value, usize), ReadFault>
    ensures { Gives (λ x. x) result ((rules.token (λ t. kinds.names N.names N.other t.meaning) (kinds.is_word_that (λ w. is_some (N.names w)))).read (map lexeme tokens.now) at) }
{
    match named_at::<N>(tokens, at) {
        Some(value) => Ok((value, at + 1)),
        None => Err(ReadFault::At(at)),
    }
}

/// `posedge` and the like.
pub struct Edges;

impl Names for Edges {
    type Value = Edge;

    ghost use Rattle.sdf_tree.specs.declared.tree.Edge.TheVariants.{Posedge};
    ghost use Rattle.sdf_tree.specs.Kinds.{edge_of};

    ghost names = { edge_of };

    ghost other = { Posedge };

    fn of(word: Keyword) -> Option<Edge> {
        match word {
            Keyword::Posedge => Some(Edge::Posedge),
            Keyword::Negedge => Some(Edge::Negedge),
            Keyword::Edge01 => Some(Edge::ZeroOne),
            Keyword::Edge10 => Some(Edge::OneZero),
            Keyword::Edge0z => Some(Edge::ZeroZ),
            Keyword::EdgeZ1 => Some(Edge::ZOne),
            Keyword::Edge1z => Some(Edge::OneZ),
            Keyword::EdgeZ0 => Some(Edge::ZZero),
            _ => None,
        }
    }
}

/// `SETUP` and the like.
pub struct PairChecks;

impl Names for PairChecks {
    type Value = PairCheck;

    ghost use Rattle.sdf_tree.specs.declared.tree.PairCheck.TheVariants.{Setup};
    ghost use Rattle.sdf_tree.specs.Kinds.{pair_of};

    ghost names = { pair_of };

    ghost other = { Setup };

    fn of(word: Keyword) -> Option<PairCheck> {
        match word {
            Keyword::Setup => Some(PairCheck::Setup),
            Keyword::Hold => Some(PairCheck::Hold),
            Keyword::Recovery => Some(PairCheck::Recovery),
            Keyword::Removal => Some(PairCheck::Removal),
            Keyword::Skew => Some(PairCheck::Skew),
            _ => None,
        }
    }
}

/// `SETUPHOLD` and `RECREM`.
pub struct WindowChecks;

impl Names for WindowChecks {
    type Value = WindowCheck;

    ghost use Rattle.sdf_tree.specs.declared.tree.WindowCheck.TheVariants.{SetupHold};
    ghost use Rattle.sdf_tree.specs.Kinds.{window_of};

    ghost names = { window_of };

    ghost other = { SetupHold };

    fn of(word: Keyword) -> Option<WindowCheck> {
        match word {
            Keyword::SetupHold => Some(WindowCheck::SetupHold),
            Keyword::RecRem => Some(WindowCheck::RecRem),
            _ => None,
        }
    }
}

/// `WIDTH` and `PERIOD`.
pub struct SingleChecks;

impl Names for SingleChecks {
    type Value = SingleCheck;

    ghost use Rattle.sdf_tree.specs.declared.tree.SingleCheck.TheVariants.{Width};
    ghost use Rattle.sdf_tree.specs.Kinds.{single_of};

    ghost names = { single_of };

    ghost other = { Width };

    fn of(word: Keyword) -> Option<SingleCheck> {
        match word {
            Keyword::Width => Some(SingleCheck::Width),
            Keyword::Period => Some(SingleCheck::Period),
            _ => None,
        }
    }
}

/// `BIDIRECTSKEW` and `NOCHANGE`.
pub struct SkippedChecks;

impl Names for SkippedChecks {
    type Value = Skipped;

    ghost use Rattle.sdf_tree.specs.declared.tree.Skipped.TheVariants.{NoChange};
    ghost use Rattle.sdf_tree.specs.Kinds.{skipped_check_of};

    ghost names = { skipped_check_of };

    ghost other = { NoChange };

    fn of(word: Keyword) -> Option<Skipped> {
        match word {
            Keyword::BidirectSkew => Some(Skipped::BidirectSkew),
            Keyword::NoChange => Some(Skipped::NoChange),
            _ => None,
        }
    }
}

/// `TIMINGENV` and `LABEL`.
pub struct SkippedParts;

impl Names for SkippedParts {
    type Value = Skipped;

    ghost use Rattle.sdf_tree.specs.declared.tree.Skipped.TheVariants.{Label};
    ghost use Rattle.sdf_tree.specs.Kinds.{skipped_part_of};

    ghost names = { skipped_part_of };

    ghost other = { Label };

    fn of(word: Keyword) -> Option<Skipped> {
        match word {
            Keyword::TimingEnv => Some(Skipped::TimingEnv),
            Keyword::Label => Some(Skipped::Label),
            _ => None,
        }
    }
}

/// `PATHPULSE` and `PATHPULSEPERCENT`: whether limits are in percent.
pub struct Pulses;

impl Names for Pulses {
    type Value = bool;

    ghost use Rattle.std.specs.Prelude.{false};
    ghost use Rattle.sdf_tree.specs.Entries.{percent_of};

    ghost names = { percent_of };

    ghost other = { false };

    fn of(word: Keyword) -> Option<bool> {
        match word {
            Keyword::PathPulse => Some(false),
            Keyword::PathPulsePercent => Some(true),
            _ => None,
        }
    }
}
