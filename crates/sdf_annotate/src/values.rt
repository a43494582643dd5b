// The values of a circuit's places while entries are applied.
ghost use Rattle.std.specs.Prelude.{◌≡◌, IfOk, None, replicate};

use crate::unmatched::Unmatched;
use sg_circuit::LegTiming;
use sg_text::NoMemory;
use std::alloc::Global;

/// What some entries make of a circuit: the new timings of legs and paths, in the order of the rows that number them, and the limits of
/// all timing checks; and those of the entries that are for nothing.
#[derive(Drop)]
pub struct NewValues {
    pub timings: Vec<Option<Box<LegTiming>>>,
    pub limits: Vec<[i64; 2]>,
    pub unmatched: Vec<Unmatched>,
}

/// No new timings yet, for so many places.
pub fn no_timings(alloc: Global, count: usize) -> Result<Vec<Option<Box<LegTiming>>>, NoMemory>
    ensures { IfOk result (λ v. v.items ≡ replicate count None) }
{
    let mut timings = Vec::with_capacity(alloc, count)?;
    for _ in 0..count {
        timings.push(None)?;
    }
    Ok(timings)
}
