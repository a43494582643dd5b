// The ways of a circuit: what its elements and timing checks drive and read.
ghost use Rattle.std.specs.Prelude.{◌≡◌, ◌+◌, ◌++◌, ◌<◌, ◌≤◌, ◌^◌, [], All, IfOk, OnOk, length, map};
ghost use Rattle.sg_circuit.specs.Closed.{IsClosed};
ghost use Rattle.sg_circuit.specs.Pins.{pins_on};
ghost use Rattle.sg_circuit.specs.Seen.{circuit_seen, element_seen, AreIndexed, IsIndexed};
ghost use Rattle.settle_bound.specs.Linked.{check_link, element_link, reads_of, AreLinksOf, HavePins};
ghost use Rattle.settle_bound.specs.Links.{AreWays};

use crate::terminals::{datum_net, refer_net};
use crate::ways::{Link, Ways};
use crate::weights::longest_delay;
use sg_circuit::{Check, Circuit, Element, FanOut, Parts, Pin};
use sg_text::NoMemory;
use std::alloc::Global;

fn link_of(parts: &Parts, element: &Element) -> Link
    requires tables { AreIndexed parts.now }
    requires kind { IsIndexed parts.now element.now.kind }
    ensures { result ≡ element_link (element_seen parts.now element.now) }
{
    Link {
        driven: element.output,
        weight: longest_delay(parts, element.kind),
    }
}

fn add_element_links(links: &mut Vec<Link>, parts: &Parts) -> Result<(), NoMemory>
    requires tables { AreIndexed parts.now }
    requires none { links.old.items ≡ [] }
    ensures { OnOk result (links.new.items ≡ map element_link (circuit_seen parts.now).elements) }
{
    for element in &parts.elements {
        links.push(link_of(parts, element))?;
    }
    Ok(())
}

// A timing check takes no time. One without a notifier reads nothing, so that its link leads nowhere.
fn add_check_links(links: &mut Vec<Link>, checks: &[Check]) -> Result<(), NoMemory>
    ensures { OnOk result (links.new.items ≡ links.old.items ++ map check_link checks.now) }
{
    for check in checks {
        links.push(Link {
            driven: check.notifier.unwrap_or(0),
            weight: 0,
        })?;
    }
    Ok(())
}

fn collect_links(alloc: Global, parts: &Parts) -> Result<Vec<Link>, NoMemory>
    requires tables { AreIndexed parts.now }
    ensures { IfOk result (λ links. links.items ≡ map element_link (circuit_seen parts.now).elements ++ map check_link parts.now.checks.items) }
{
    let mut links = Vec::new(alloc);
    add_element_links(&mut links, parts)?;
    add_check_links(&mut links, &parts.checks)?;
    Ok(links)
}

// The hop of a number reads these nets.
fn add_reads(pins: &mut Vec<Pin>, number: u32, nets: &[u32]) -> Result<(), NoMemory>
    ensures { OnOk result (pins.new.items ≡ pins.old.items ++ pins_on number nets.now) }
{
    for net in nets {
        pins.push(Pin {
            net: *net,
            element: number,
        })?;
    }
    Ok(())
}

fn add_element_pins(pins: &mut Vec<Pin>, parts: &Parts) -> Result<(), NoMemory>
    requires closed { IsClosed (circuit_seen parts.now) }
    requires none { pins.old.items ≡ [] }
    ensures { OnOk result (HavePins (circuit_seen parts.now) (length (circuit_seen parts.now).elements) pins.new.items) }
{
    for (number, element) in parts.elements.iter().enumerate() {
        add_reads(pins, number as u32, &element.inputs)?;
    }
    Ok(())
}

// A timing check with a notifier reads its terminals.
fn add_terminals(pins: &mut Vec<Pin>, parts: &Parts, check: usize) -> Result<(), NoMemory>
    requires closed { IsClosed (circuit_seen parts.now) }
    requires check { check < length parts.now.checks.items }
    ensures { OnOk result (pins.new.items ≡ pins.old.items ++ pins_on (length (circuit_seen parts.now).elements + check) (reads_of (circuit_seen parts.now) (length (circuit_seen parts.now).elements + check))) }
{
    if parts.checks[check].notifier.is_none() {
        return Ok(());
    }
    let number = (parts.elements.len() + check) as u32;
    let refer = refer_net(parts, check);
    match datum_net(parts, check) {
        Some(datum) => add_reads(pins, number, &[refer, datum]),
        None => add_reads(pins, number, &[refer]),
    }
}

fn add_check_pins(pins: &mut Vec<Pin>, parts: &Parts) -> Result<(), NoMemory>
    requires closed { IsClosed (circuit_seen parts.now) }
    requires elements { HavePins (circuit_seen parts.now) (length (circuit_seen parts.now).elements) pins.old.items }
    ensures { OnOk result (HavePins (circuit_seen parts.now) (length (circuit_seen parts.now).elements + length parts.now.checks.items) pins.new.items) }
{
    for check in 0..parts.checks.len() {
        add_terminals(pins, parts, check)?;
    }
    Ok(())
}

fn collect_pins(alloc: Global, parts: &Parts) -> Result<Vec<Pin>, NoMemory>
    requires closed { IsClosed (circuit_seen parts.now) }
    ensures pins { IfOk result (λ pins. HavePins (circuit_seen parts.now) (length (circuit_seen parts.now).elements + length parts.now.checks.items) pins.items) }
    ensures few { IfOk result (λ pins. length pins.items < 2 ^ 32) }
{
    let mut pins = Vec::new(alloc);
    add_element_pins(&mut pins, parts)?;
    add_check_pins(&mut pins, parts)?;
    if pins.len() > u32::MAX as usize {
        return Err(NoMemory);
    }
    Ok(pins)
}

/// The ways of a circuit's nets.
pub fn collect_ways(alloc: Global, circuit: &Circuit) -> Result<Ways, NoMemory>
    ensures ways { IfOk result (λ ways. AreWays ways) }
    ensures of { IfOk result (λ ways. AreLinksOf circuit.now ways) }
{
    let parts = circuit.parts();
    let nets = parts.nets.len() as u32;
    let links = collect_links(alloc, parts)?;
    let pins = collect_pins(alloc, parts)?;
    let readers = FanOut::of_pins(alloc, nets, &pins)?;
    Ok(Ways {
        nets,
        links,
        pins,
        readers,
    })
}
