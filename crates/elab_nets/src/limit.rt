// How many nets a circuit may have.
ghost use Rattle.std.specs.Prelude.{◌≡◌, ◌≤◌, ◌+◌, ◌^◌, ◌++◌, ◌∷◌, [], ℕ, OnOk, IfErr, length};
ghost use Rattle.sg_circuit.specs.declared.nets.Driver.TheVariants.{Nobody};
ghost use Rattle.elab_numbering.specs.Refusals.{RefusesCount};

use elab_model::ElabKind;
use sg_circuit::{Driver, Net};
use sg_text::{Place, Refused, Text};
use std::alloc::Global;

const MOST_NETS: usize = 4_194_304;

/// Adds a net that nothing drives yet, unless there are as many as there may be.
pub fn push_net(
    alloc: Global,
    scope: u32,
    name: &[u8],
    bit: Option<i64>,
    nets: &mut Vec<Net>,
) -> Result<(), Refused<ElabKind>>
    requires few { length nets.old.items ≤ 2 ^ 22 }
    ensures few { length nets.new.items ≤ 2 ^ 22 }
    ensures nets { OnOk result (nets.new.items ≡ nets.old.items ++ record { scope = scope; name = name.now; bit = bit; driver = Nobody } ∷ []) }
    ensures refused { IfErr result (λ r. (more : ℕ) → RefusesCount (length nets.old.items + 1 + more) r) }
{
    if nets.len() >= MOST_NETS {
        return Err(Refused::Fault {
            kind: ElabKind::TooMany,
            place: Place { file: 0, byte: 0 },
        });
    }
    let name = Text::copy(alloc, name)?;
    nets.push(Net {
        scope,
        name,
        bit,
        driver: Driver::Nobody,
    })?;
    Ok(())
}
