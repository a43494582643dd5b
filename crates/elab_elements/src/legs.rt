// The Legs of a leaf.
ghost use Rattle.std.specs.Prelude.{◌≡◌, ◌≤◌, ◌<◌, ◌+◌, ◌-◌, ◌^◌, List, true, Some, OnOk, IfErr, length, map, flat_map, slice_get, []};
ghost use Rattle.sg_circuit.specs.declared.elements.UdpUse as ghost_udps;
ghost use Rattle.sg_delay.specs.declared.gates.GateDelays as ghost_delays;
ghost use Rattle.vl_tree.specs.Tree.{Source};
ghost use Rattle.elab_laws.specs.Handing.{all_bits};
ghost use Rattle.elab_model.specs.Elements as def_elements;
ghost use Rattle.elab_model.specs.Elements.{place_in};
ghost use Rattle.elab_model.specs.Hierarchy as def;
ghost use Rattle.elab_model.specs.NameFaults.{declaration_faults};
ghost use Rattle.elab_model.specs.Nets.{OwnNet};
ghost use Rattle.elab_model.specs.Ports.{port_list};
ghost use Rattle.vl_tree.specs.Seen.{view_name};
ghost use Rattle.elab_numbering.specs.Refusals.{RefusesCount};
ghost use Rattle.elab_elements.specs.Adding.{Adds, IsHere, HasOutside};
ghost use Rattle.std.specs.List.{range_with_len};
ghost use Rattle.sg_circuit.specs.Closed.{width_of};
ghost use Rattle.elab_variables.specs.Seen.{variable_at};
ghost use Rattle.elab_elements.specs.Puts.{Puts, RefusesPuts};
ghost use Rattle.elab_elements.specs.Words.{leg_puts, bit_leg, start_of, variable_puts, port_legs};

use crate::Placing;
use crate::placing::add_element;
use elab_model::ElabKind;
use elab_variables::Table;
use sg_circuit::{ElementKind, NetId, Port};
use sg_text::{Place, Refused};
use vl_tree::Name;

// Adds a Leg to a net from the one outside, if there is one.
fn add_leg(
    scope: u32,
    place: Place,
    output: NetId,
    input: Option<NetId>,
    made: &mut Placing,
) -> Result<(), Refused<ElabKind>>
    requires few { length made.old.elements.items ≤ 2 ^ 22 }
    ensures few { length made.new.elements.items ≤ 2 ^ 22 }
    ensures puts { OnOk result (Puts made.old made.new (leg_puts scope place output input)) }
    ensures refused { IfErr result (RefusesPuts made.old (leg_puts scope place output input)) }
{
    match input {
        None => Ok(()),
        Some(input) => {
            let kind = ElementKind::Leg { timing: 0 };
            add_element(scope, place, &[input], output, kind, made)
        }
    }
}

// Adds the Legs of the bits from one to before another.
fn add_between(
    scope: u32,
    place: Place,
    start: usize,
    end: usize,
    inner: &[NetId],
    outer: &[Option<NetId>],
    made: &mut Placing,
) -> Result<(), Refused<ElabKind>>
    requires inner { end ≤ length inner.now }
    requires outer { end ≤ length outer.now }
    requires few { length made.old.elements.items ≤ 2 ^ 22 }
    ensures few { length made.new.elements.items ≤ 2 ^ 22 }
    ensures puts { OnOk result (Puts made.old made.new (flat_map (bit_leg scope place inner.now outer.now) (range_with_len start (end - start)))) }
    ensures refused { IfErr result (RefusesPuts made.old (flat_map (bit_leg scope place inner.now outer.now) (range_with_len start (end - start)))) }
{
    for bit in start..end {
        add_leg(scope, place, inner[bit], outer[bit], made)?;
    }
    Ok(())
}

// Where the bits of a variable end.
fn end_of(table: &Table, variable: usize) -> usize
    requires { variable < length table.now }
    ensures end { result ≡ start_of table.now variable + width_of (variable_at table.now variable).range }
    ensures within { result ≤ length (all_bits table.now) }
{
    let count = table.len();
    let next = variable + 1;
    if next == count {
        return table.bits();
    }
    table.row(next).start
}

// Adds the Legs of the bits of a variable, if it is an input.
fn add_variable_legs(
    table: &Table,
    scope: u32,
    place: Place,
    variable: usize,
    inner: &[NetId],
    outer: &[Option<NetId>],
    made: &mut Placing,
) -> Result<(), Refused<ElabKind>>
    requires variable { variable < length table.now }
    requires inner { length inner.now ≡ length (all_bits table.now) }
    requires outer { length outer.now ≡ length (all_bits table.now) }
    requires few { length made.old.elements.items ≤ 2 ^ 22 }
    ensures few { length made.new.elements.items ≤ 2 ^ 22 }
    ensures puts { OnOk result (Puts made.old made.new (variable_puts scope place table.now inner.now outer.now variable)) }
    ensures refused { IfErr result (RefusesPuts made.old (variable_puts scope place table.now inner.now outer.now variable)) }
{
    let row = table.row(variable);
    match row.port {
        Port::Input => {
            let end = end_of(table, variable);
            add_between(scope, place, row.start, end, inner, outer, made)
        }
        Port::Output | Port::Inner => Ok(()),
    }
}

// Where a port stands in the list of ports. The variables of a module begin with its ports.
fn place_of(ports: &[Name], variable: usize, instance: Place) -> Place
    ensures { result ≡ place_in (slice_get (map view_name ports.now) variable) instance }
{
    match ports.get(variable) {
        Some(port) => port.place,
        None => instance,
    }
}

// Adds the Legs of all variables.
fn add_all_legs(
    table: &Table,
    ports: &[Name],
    scope: u32,
    place: Place,
    inner: &[NetId],
    outer: &[Option<NetId>],
    made: &mut Placing,
) -> Result<(), Refused<ElabKind>>
    requires inner { length inner.now ≡ length (all_bits table.now) }
    requires outer { length outer.now ≡ length (all_bits table.now) }
    requires few { length made.old.elements.items ≤ 2 ^ 22 }
    ensures few { length made.new.elements.items ≤ 2 ^ 22 }
    ensures puts { OnOk result (Puts made.old made.new (flat_map (port_legs scope (map view_name ports.now) place table.now inner.now outer.now) (range_with_len 0 (length table.now - 0)))) }
    ensures refused { IfErr result (RefusesPuts made.old (flat_map (port_legs scope (map view_name ports.now) place table.now inner.now outer.now) (range_with_len 0 (length table.now - 0)))) }
{
    let count = table.len();
    for variable in 0..count {
        let place = place_of(ports, variable, place);
        add_variable_legs(table, scope, place, variable, inner, outer, made)?;
    }
    Ok(())
}

/// Adds a Leg for each bit of each input of a leaf, from the net that lies outside of it. `ports` is the list of ports of its module.
pub fn add_legs(
    table: &Table,
    ports: &[Name],
    scope: u32,
    place: Place,
    inner: &[NetId],
    outer: &[Option<NetId>],
    made: &mut Placing,
) -> Result<(), Refused<ElabKind>>
    requires inner { length inner.now ≡ length (all_bits table.now) }
    requires outer { length outer.now ≡ length (all_bits table.now) }
    requires few { length made.old.elements.items ≤ 2 ^ 22 }
    ensures few { length made.new.elements.items ≤ 2 ^ 22 }
    ensures legs { OnOk result ((delays : List ghost_delays.GateDelays) (udps : List ghost_udps.UdpUse) (all : List OwnNet) (source : Source) (s : def.Instance) → IsHere all source s scope table.now inner.now → HasOutside all source s table.now outer.now
        → s.step.place ≡ place → def.is_leaf source s ≡ true → map view_name ports.now ≡ port_list s.step.definition → declaration_faults s.step.definition ≡ [] → Adds delays udps all made.old made.new (def_elements.legs source s)) }
    ensures refused { IfErr result (λ r. (all : List OwnNet) (source : Source) (s : def.Instance) → IsHere all source s scope table.now inner.now → HasOutside all source s table.now outer.now
        → s.step.place ≡ place → def.is_leaf source s ≡ true → map view_name ports.now ≡ port_list s.step.definition → declaration_faults s.step.definition ≡ [] → RefusesCount (length made.old.elements.items + length (def_elements.legs source s)) r) }
{
    add_all_legs(table, ports, scope, place, inner, outer, made)
}
