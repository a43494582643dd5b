// The delays of the signals that timing checks see.
ghost use Rattle.std.specs.Prelude.{IfOk};
ghost use Rattle.late_limits.specs.Adjusted.{IsAdjustedFrom};

use circuit_open::OpenCircuit;
use late_limits::{adjust, limits_of};
use sg_circuit::Circuit;
use sg_text::NoMemory;
use std::alloc::Global;

/// The circuit with the least delays of its Lates by which limits below 0 are met, and with the limits that are taken as 0 so that there are such delays (IEEE 1364-2005, 15.8). Takes memory in
/// proportion to the checks, elements and scopes.
pub fn adjusted(alloc: Global, circuit: Circuit) -> Result<Circuit, NoMemory>
    ensures { IfOk result (λ made. IsAdjustedFrom circuit made) }
{
    let limits = limits_of(alloc, &circuit.parts().check_timings)?;
    let found = adjust(alloc, &circuit, &limits)?;
    let mut open = match OpenCircuit::reserve(circuit, 0) {
        Ok(open) => open,
        Err(_) => return Err(NoMemory),
    };
    open.adjust(found);
    Ok(open.close())
}
