// How many paths and timing checks there may be.
ghost use Rattle.std.specs.Prelude.{ℕ, ◌+◌, ◌<◌, ◌^◌, OnOk, IfErr};
ghost use Rattle.elab_numbering.specs.Refusals.{RefusesCount};

use elab_model::ElabKind;
use sg_text::{Place, Refused};

const MOST: usize = 4_194_304;

/// Refuses what would be one more than there may be (TooMany, at the first byte of the first file).
pub fn check_count(count: usize) -> Result<(), Refused<ElabKind>>
    ensures below { OnOk result (count < 2 ^ 22) }
    ensures refused { IfErr result (λ r. (more : ℕ) → RefusesCount (count + 1 + more) r) }
{
    if count < MOST {
        return Ok(());
    }
    Err(Refused::Fault {
        kind: ElabKind::TooMany,
        place: Place { file: 0, byte: 0 },
    })
}
