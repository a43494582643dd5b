// Constants at ports.
ghost use Rattle.std.specs.Prelude.{◌≡◌, ◌≤◌, ◌<◌, ◌+◌, ◌^◌, ◌++◌, ℕ, List, All, true, ◌∷◌, Some, OnOk, IfErr, length, map, flat_map};
ghost use Rattle.sg_circuit.specs.declared.elements.UdpUse as ghost_udps;
ghost use Rattle.sg_delay.specs.declared.gates.GateDelays as ghost_delays;
ghost use Rattle.vl_tree.specs.Tree.{Source};
ghost use Rattle.elab_laws.specs.Handing.{all_bits};
ghost use Rattle.elab_bits.specs.Seen.{view_bit, IsInRow};
ghost use Rattle.elab_model.specs.Bits.{constant};
ghost use Rattle.elab_model.specs.Elements as def_elements;
ghost use Rattle.elab_model.specs.Hierarchy as def;
ghost use Rattle.elab_model.specs.Nets.{OwnNet};
ghost use Rattle.elab_numbering.specs.Refusals.{RefusesCount};
ghost use Rattle.elab_elements.specs.Adding.{Adds, IsHere, HasOutside, IsConnectedOnce};
ghost use Rattle.elab_elements.specs.Seen.{kind_in, NamesPlaces};
ghost use Rattle.elab_elements.specs.Puts.{Puts, RefusesPuts};
ghost use Rattle.elab_elements.specs.Words.{port_net, driven_puts, port_puts};
ghost use Rattle.elab_ports.specs.Constants.{constants_in, view_constant};
ghost use Rattle.elab_model.specs.Names.{variables};
ghost use Rattle.elab_model.specs.Ports.{port_list};

use crate::Placing;
use crate::placing::add_element;
use elab_model::ElabKind;
use elab_ports::PortConstant;
use elab_variables::Table;
use sg_circuit::{ElementKind, NetId, Port};
use sg_text::Refused;

// The net that a constant at a bit of a port drives.
fn net_of(
    table: &Table,
    leaf: bool,
    inner: &[NetId],
    outer: &[Option<NetId>],
    bit: usize,
) -> Option<NetId>
    requires inner { length inner.now ≡ length (all_bits table.now) }
    requires outer { length outer.now ≡ length (all_bits table.now) }
    requires bit { bit < length (all_bits table.now) }
    ensures { result ≡ port_net table.now leaf inner.now outer.now bit }
{
    let (variable, _) = table.bit(bit);
    if table.row(variable).port == Port::Input && leaf {
        return outer[bit];
    }
    Some(inner[bit])
}

// Adds a Pass of a constant to a net.
fn add_driven(
    scope: u32,
    constant: PortConstant,
    output: Option<NetId>,
    made: &mut Placing,
) -> Result<(), Refused<ElabKind>>
    requires few { length made.old.elements.items ≤ 2 ^ 22 }
    ensures few { length made.new.elements.items ≤ 2 ^ 22 }
    ensures puts { OnOk result (Puts made.old made.new (driven_puts scope constant output)) }
    ensures refused { IfErr result (RefusesPuts made.old (driven_puts scope constant output)) }
{
    match output {
        None => Ok(()),
        Some(output) => {
            let kind = ElementKind::Pass {
                constant: Some(constant.value),
            };
            add_element(scope, constant.place, &[], output, kind, made)
        }
    }
}

// Adds a Pass for each of these constants.
fn add_all(
    scope: u32,
    table: &Table,
    leaf: bool,
    inner: &[NetId],
    outer: &[Option<NetId>],
    constants: &[PortConstant],
    made: &mut Placing,
) -> Result<(), Refused<ElabKind>>
    requires inner { length inner.now ≡ length (all_bits table.now) }
    requires outer { length outer.now ≡ length (all_bits table.now) }
    requires bits { All (λ c. c.bit < length (all_bits table.now)) constants.now }
    requires few { length made.old.elements.items ≤ 2 ^ 22 }
    ensures few { length made.new.elements.items ≤ 2 ^ 22 }
    ensures puts { OnOk result (Puts made.old made.new (flat_map (port_puts scope table.now leaf inner.now outer.now) constants.now)) }
    ensures refused { IfErr result (RefusesPuts made.old (flat_map (port_puts scope table.now leaf inner.now outer.now) constants.now)) }
{
    for constant in constants {
        let output = net_of(table, leaf, inner, outer, constant.bit);
        add_driven(scope, *constant, output, made)?;
    }
    Ok(())
}

/// Adds a Pass for each constant at a port of an instance: to what lies outside an input of a leaf, and else to the port's own bit. `scope` is the parent of the instance, `table`,
/// `inner` and `outer` are the table and the rows of the instance.
pub fn add_port_constants(
    scope: u32,
    table: &Table,
    leaf: bool,
    inner: &[NetId],
    outer: &[Option<NetId>],
    constants: &[PortConstant],
    made: &mut Placing,
) -> Result<(), Refused<ElabKind>>
    requires inner { length inner.now ≡ length (all_bits table.now) }
    requires outer { length outer.now ≡ length (all_bits table.now) }
    requires bits { All (λ c. c.bit < length (all_bits table.now)) constants.now }
    requires few { length made.old.elements.items ≤ 2 ^ 22 }
    ensures few { length made.new.elements.items ≤ 2 ^ 22 }
    ensures elements { OnOk result ((delays : List ghost_delays.GateDelays) (udps : List ghost_udps.UdpUse) (all : List OwnNet) (source : Source) (s c : def.Instance) → s.step.number ≡ scope → c.above ≡ s.step ∷ s.above
        → IsHere all source c c.step.number table.now inner.now → HasOutside all source c table.now outer.now → def.has_no_child source c.step ≡ leaf → IsConnectedOnce c.step
        → map (view_constant table.now) constants.now ≡ constants_in (variables s.step.definition) c.step.connections (port_list c.step.definition)
        → Adds delays udps all made.old made.new (def_elements.child_elements source s c)) }
    ensures refused { IfErr result (λ r. (source : Source) (s c : def.Instance)
        → map (view_constant table.now) constants.now ≡ constants_in (variables s.step.definition) c.step.connections (port_list c.step.definition)
        → RefusesCount (length made.old.elements.items + length (def_elements.child_elements source s c)) r) }
{
    add_all(scope, table, leaf, inner, outer, constants, made)
}
