// Indexes of legs and specify paths, and of timing checks.
ghost use Rattle.std.specs.Prelude.{◌≡◌, ◌<◌, ◌^◌, IfOk, length};
ghost use Rattle.sg_circuit.specs.Closed.{IsClosed};
ghost use Rattle.sg_circuit.specs.Seen.{circuit_seen};
ghost use Rattle.annotation_spots.specs.Rows.{AreRows};
ghost use Rattle.annotation_places.specs.Indexes.{Holds, nothing, stands_in, refers_to};

use annotation_index::Index;
use annotation_spots::Spot;
use sg_circuit::Parts;
use sg_text::NoMemory;
use std::alloc::Global;

/// Legs and specify paths by their scope.
pub fn spots_by_scope<'a>(
    alloc: Global,
    parts: &Parts,
    spots: &[Spot],
) -> Result<Index<'a>, NoMemory>
    requires rows { AreRows (circuit_seen parts.now) spots.now }
    requires few { length spots.now < 2 ^ 32 }
    ensures { IfOk result (λ index. Holds nothing index (stands_in (circuit_seen parts.now)) (length spots.now)) }
{
    let mut index = Index::new(alloc);
    for number in 0..spots.len() as u32 {
        index.add(alloc, spots[number as usize].scope(parts), &[], number)?;
    }
    Ok(index)
}

/// Timing checks by the net of their reference.
pub fn checks_by_reference<'a>(alloc: Global, parts: &Parts) -> Result<Index<'a>, NoMemory>
    requires closed { IsClosed (circuit_seen parts.now) }
    ensures { IfOk result (λ index. Holds nothing index (refers_to (circuit_seen parts.now)) (length parts.now.checks.items)) }
{
    let mut index = Index::new(alloc);
    for number in 0..parts.checks.len() as u32 {
        let timing = &parts.check_timings[number as usize];
        index.add(alloc, timing.refer.net, &[], number)?;
    }
    Ok(index)
}
