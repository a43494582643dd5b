// The numbers of the nets of an instance's bits.
ghost use Rattle.std.specs.Prelude.{ℕ, ◌≡◌, ◌+◌, ◌≤◌, ◌^◌, ◌++◌, OnOk, IfOk, IfErr};
ghost use Rattle.elab_laws.specs.Handing.{numbered, new_count};
ghost use Rattle.elab_numbering.specs.Refusals.{RefusesCount};

use elab_model::ElabKind;
use sg_circuit::NetId;
use sg_text::{Place, Refused};

// how many nets a circuit may have
const MOST_NETS: u32 = 4_194_304;

/// Adds the number of each bit's net to `row`: the one that it is given, or else the next that is free, from `next` on.
/// Answers the next that is free then. More than 2^22 nets are TooMany, with the first byte of the first file as their place;
/// after a refusal `row` has some numbers more.
pub fn hand_down(
    given: &[Option<NetId>],
    next: NetId,
    row: &mut Vec<NetId>,
) -> Result<NetId, Refused<ElabKind>>
    requires few { next ≤ 2 ^ 22 }
    ensures row { OnOk result (row.new.items ≡ row.old.items ++ numbered next given.now) }
    ensures next { IfOk result (λ after. after ≡ next + new_count given.now) }
    ensures few { IfOk result (λ after. after ≤ 2 ^ 22) }
    ensures refused { IfErr result (RefusesCount (next + new_count given.now)) }
{
    let mut free = next;
    for number in given {
        match *number {
            Some(known) => row.push(known)?,
            None => {
                if free >= MOST_NETS {
                    return Err(too_many());
                }
                row.push(free)?;
                free += 1;
            }
        }
    }
    Ok(free)
}

fn too_many() -> Refused<ElabKind>
    ensures { (count : ℕ) → 2 ^ 22 + 1 ≤ count → RefusesCount count result }
{
    Refused::Fault {
        kind: ElabKind::TooMany,
        place: Place { file: 0, byte: 0 },
    }
}
