// Conditions of paths and of timing checks against those of entries.
ghost use Rattle.std.specs.Prelude.{◌≡◌, ◌<◌, IfSome, length};
ghost use Rattle.std.specs.Option.{option_map};
ghost use Rattle.annotation_model.specs.Matching as matching;
ghost use Rattle.annotation_model.specs.Same as def;
ghost use Rattle.sg_circuit.specs.ChecksSeen.{text_at};
ghost use Rattle.sg_circuit.specs.PathsSeen.{IsIndexedCondition, condition_seen, written_at};
ghost use Rattle.annotation_conditions.specs.Seen.{wanted_seen};

use crate::words::Wanted;
use cond_expr::{Expr, Tok};
use sg_circuit::PathCondition;
use sg_text::Text;

// Whether the condition at a place of the circuit's table is the one that these words spell.
fn is_same_condition(conditions: &[Expr], place: usize, words: &[Tok<Text>]) -> bool
    requires { place < length conditions.now }
    ensures { result ≡ def.same_condition (written_at conditions.now place) words.now }
{
    conditions[place].same(words)
}

/// Whether the condition of a path is one that an entry asks for, where `conditions` is the circuit's table: the same token by token, each
/// without outer parentheses (IEEE 1497-2001, conditions of paths).
pub fn fits_condition(wanted: &Wanted, conditions: &[Expr], condition: &PathCondition) -> bool
    requires { IsIndexedCondition (length conditions.now) condition.now }
    ensures { result ≡ matching.fits_condition (wanted_seen wanted.now) (condition_seen conditions.now condition.now) }
{
    match (wanted, condition) {
        (Wanted::Any, _) => true,
        (Wanted::If(words), PathCondition::If { written, .. }) => {
            is_same_condition(conditions, *written, words)
        }
        (Wanted::Else, PathCondition::IfNone) => true,
        _ => false,
    }
}

/// Whether the condition of a timing check's terminal, by its place in the circuit's table, is the one that an entry asks for, if it asks
/// for one.
pub fn fits_words(
    wanted: &Option<Vec<Tok<Text>>>,
    conditions: &[Expr],
    written: Option<usize>,
) -> bool
    requires { IfSome written (λ place. place < length conditions.now) }
    ensures { result ≡ def.fits_words (option_map (λ ws. ws.items) wanted.now) (text_at conditions.now written) }
{
    match (wanted, written) {
        (None, _) => true,
        (Some(words), Some(written)) => is_same_condition(conditions, written, words),
        (Some(_), None) => false,
    }
}
