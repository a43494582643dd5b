// Pieces of a list that go.
use fit_items::Run;

/// The tokens that go with a piece between commas: the comma before it where a piece before it stays, else the one behind it.
pub fn removal(pieces: &[Run], place: usize, keeps: bool) -> Run {
    let Some(piece) = pieces.get(place) else {
        return Run::none(0);
    };
    let before = pieces.get(place.saturating_sub(1));
    let behind = pieces.get(place.saturating_add(1));
    match (before, behind) {
        (Some(before), _) if keeps => Run {
            first: before.end,
            end: piece.end,
        },
        (_, Some(behind)) => Run {
            first: piece.first,
            end: behind.first,
        },
        _ => *piece,
    }
}
