// Half of a text as a moment.
ghost use Rattle.std.specs.Prelude.{IfErr, IfOk};
ghost use Rattle.sim_rounds.specs.MomentsSeen.{moment_seen};
ghost use Rattle.sim_save.specs.Faults.{IsBodyOf};
ghost use Rattle.sim_save.specs.Steps.{Head, Stops};

use crate::kinds::Stop;
use crate::lines::take_head;
use crate::sections::{read_checks, read_ending, read_nets, read_pending, read_udps, stop_at};
use sim_rounds::Moment;
use std::alloc::Global;

/// A moment with the rest of its head's numbers.
#[derive(Debug, Drop)]
pub struct Saved {
    pub tick: i8,
    pub elements: u32,
    pub moment: Moment,
}

/// The moment of which a half is the body.
pub fn read_body(alloc: Global, half: &[u8]) -> Result<Saved, Stop>
    ensures read { IfOk result (λ s. IsBodyOf half.now s.tick s.elements (moment_seen s.moment)) }
    ensures stops { IfErr result (λ e. Stops Head half.now e) }
{
    let Some((head, at_nets)) = take_head(half) else {
        return Err(stop_at(half));
    };
    let sizes = head.sizes;
    let mut nets = Vec::new(alloc);
    let mut stamps = Vec::new(alloc);
    let at_pending = read_nets(&mut nets, &mut stamps, at_nets, sizes.nets)?;
    let mut pending = Vec::new(alloc);
    let at_udps = read_pending(&mut pending, at_pending)?;
    let mut udps = Vec::new(alloc);
    let at_checks = read_udps(&mut udps, at_udps, sizes.udps)?;
    let mut latest = Vec::new(alloc);
    let at_ending = read_checks(&mut latest, at_checks, sizes.checks)?;
    let (last, evaluations) = read_ending(at_ending)?;
    let moment = Moment {
        time: head.time,
        nets,
        stamps,
        pending,
        udps,
        latest,
        last,
        evaluations,
    };
    Ok(Saved {
        tick: head.tick,
        elements: sizes.elements,
        moment,
    })
}
