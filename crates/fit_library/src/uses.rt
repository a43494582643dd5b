// The bytes of statements, of which macros may have given tokens.
use crate::words::Source;
use fit_changes::Changes;
use fit_items::{Run, Span, joined, piece_of, tokens_of};
use vl_pieces::Class;
use vl_token::Token;

// Whether a macro gave two tokens by one use.
fn is_one_use(files: &[Changes<'_>], one: &Token<'_>, other: &Token<'_>) -> bool {
    if one.place != other.place {
        return false;
    }
    match piece_of(files, one) {
        Some((class, _)) => class == Class::Use,
        None => true,
    }
}

/// The bytes of a run, with the uses of macros that gave tokens of it; None where such a use gave others too, or the run stands
/// in several files.
pub fn span_of_run(source: Source<'_, '_, '_>, run: Run) -> Option<Span> {
    let tokens = tokens_of(source.part, run);
    let first = tokens.first()?;
    let last = tokens.last()?;
    let before = match run.first.checked_sub(1) {
        Some(at) => source.part.get(at),
        None => None,
    };
    let is_cut = before.is_some_and(|before| is_one_use(source.files, before, first))
        || source
            .part
            .get(run.end)
            .is_some_and(|behind| is_one_use(source.files, last, behind));
    if is_cut {
        return None;
    }
    let (_, begin) = piece_of(source.files, first)?;
    let (_, end) = piece_of(source.files, last)?;
    joined(begin, end)
}
