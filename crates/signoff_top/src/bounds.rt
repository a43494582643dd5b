// The settle bounds of a design, and what is told of them.
ghost use Rattle.std.specs.Prelude.{IfOk};
ghost use Rattle.signoff_top.specs.Work.{IsSettleDone};

use settle_bound::{Settled, settle};
use settle_report::{bounds_text, cycle_text};
use sg_circuit::Circuit;
use sg_text::NoMemory;
use std::alloc::Global;

/// The report of settle bounds, or of a cycle.
#[derive(Drop)]
pub struct BoundsDone {
    pub cyclic: bool,
    pub text: Vec<u8>,
}

/// Finds the bounds of a circuit's nets, or a cycle. Takes memory.
pub fn bounds_of(alloc: Global, circuit: &Circuit) -> Result<BoundsDone, NoMemory>
    ensures { IfOk result (λ d. IsSettleDone circuit.now d) }
{
    match settle(alloc, circuit)? {
        Settled::Bounds(bounds) => {
            let text = bounds_text(alloc, circuit, &bounds)?;
            Ok(BoundsDone {
                cyclic: false,
                text,
            })
        }
        Settled::Cycle(hops) => {
            let text = cycle_text(alloc, circuit, &hops)?;
            Ok(BoundsDone { cyclic: true, text })
        }
    }
}
