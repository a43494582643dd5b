// The chain of causes of an event.
ghost use Rattle.std.specs.Prelude.{◌≡◌, ◌<◌, [], false, IfOk, length, replicate};
ghost use Rattle.why_causes.specs.Chains.{IsChain};
ghost use Rattle.why_causes.specs.Links.{new_link as new_link_of, IsWithin};

use crate::causes::cause;
use crate::links::{Cause, Chain, Link};
use crate::traces::Trace;
use sg_circuit::Circuit;
use sg_text::NoMemory;
use std::alloc::Global;

// The event that a cause is, if it wasn't seen yet.
fn new_link(seen: &[bool], cause: Cause) -> Option<Link>
    requires { IsWithin (length seen.now) cause }
    ensures { result ≡ new_link_of seen.now cause }
{
    match cause {
        Cause::Linked(link) => {
            if seen[link.event as usize] {
                None
            } else {
                Some(link)
            }
        }
        Cause::Nothing | Cause::NeverSet { .. } => None,
    }
}

// Adds the causes of an event, one after another, and gives the cause of the last of them. The events of the chain are marked.
fn push_links(
    alloc: Global,
    circuit: &Circuit,
    trace: &Trace<'_>,
    event: u32,
    links: &mut Vec<Link>,
    seen: &mut [bool],
) -> Result<Cause, NoMemory>
    requires nets { length trace.now.first ≡ length circuit.now.nets }
    requires event { event < length trace.now.events }
    requires none { links.old.items ≡ [] }
    requires unseen { seen.old ≡ replicate (length trace.now.events) false }
    ensures { IfOk result (λ end. IsChain circuit.now trace.now event links.new.items end) }
{
    let mut last = event;
    'links: loop {
        seen[last as usize] = true;
        let found = cause(alloc, circuit, trace, last)?;
        let Some(link) = new_link(seen, found) else {
            return Ok(found);
        };
        links.push(link)?;
        last = link.event;
    }
}

/// The cause of an event, the cause of this cause, and so on: up to one that has no cause, or whose cause stands in the chain
/// already. Takes memory of a byte for each event of the run, beside the chain.
pub fn chain(
    alloc: Global,
    circuit: &Circuit,
    trace: &Trace<'_>,
    event: u32,
) -> Result<Chain, NoMemory>
    requires nets { length trace.now.first ≡ length circuit.now.nets }
    requires event { event < length trace.now.events }
    ensures { IfOk result (λ chain. IsChain circuit.now trace.now event chain.links.items chain.end) }
{
    let mut seen = vec![in alloc; false; trace.events() as usize]?;
    let mut links = Vec::new(alloc);
    let end = push_links(alloc, circuit, trace, event, &mut links, &mut seen)?;
    Ok(Chain { links, end })
}
