// The elements of an instance of a primitive.
ghost use Rattle.std.specs.Prelude.{◌≡◌, ◌≤◌, ◌<◌, ◌+◌, ◌^◌, ℕ, List, OnOk, IfErr, length};
ghost use Rattle.sg_circuit.specs.Circuit.{Udp};
ghost use Rattle.sg_circuit.specs.Seen.{delays_at, udp_at};
ghost use Rattle.sg_circuit.specs.declared.elements.UdpUse as ghost_udps;
ghost use Rattle.sg_delay.specs.declared.gates.GateDelays as ghost_delays;
ghost use Rattle.vl_tree.specs.Seen.{view_connections};
ghost use Rattle.vl_tree.specs.Tree.{Source as GhostSource};
ghost use Rattle.elab_laws.specs.Handing.{all_bits};
ghost use Rattle.elab_model.specs.Elements as def_elements;
ghost use Rattle.elab_model.specs.Hierarchy as def;
ghost use Rattle.elab_model.specs.Members.{connection_values};
ghost use Rattle.elab_model.specs.Nets.{OwnNet};
ghost use Rattle.elab_numbering.specs.Refusals.{RefusesCount};
ghost use Rattle.elab_elements.specs.Adding.{Adds, IsHere, HasDriven, HasTerminals};
ghost use Rattle.elab_elements.specs.Terminals.{outputs_of, inputs_of};

use crate::Placing;
use crate::gates::add_terminal_elements;
use crate::terminals::{Terminals, add_connected};
use elab_model::ElabKind;
use elab_variables::Table;
use sg_circuit::{ElementKind, NetId};
use sg_text::{Place, Refused};
use vl_tree::Connections;

/// Adds the element of an instance of a primitive (IEEE 1364-2005, 8.1.1, 8.6). `udp` is the place of its table, `delays` that of its delays.
pub fn add_primitive(
    table: &Table,
    scope: u32,
    place: Place,
    udp: u32,
    delays: u32,
    connections: &Connections,
    first: NetId,
    row: &[NetId],
    driven: &[NetId],
    room: &mut Terminals,
    made: &mut Placing,
) -> Result<(), Refused<ElabKind>>
    requires row { length row.now ≡ length (all_bits table.now) }
    requires driven { length driven.now ≡ length (all_bits table.now) }
    requires first { first ≤ 2 ^ 22 }
    requires few { length made.old.elements.items ≤ 2 ^ 22 }
    ensures few { length made.new.elements.items ≤ 2 ^ 22 }
    ensures elements { OnOk result ((listed : List ghost_delays.GateDelays) (udps : List ghost_udps.UdpUse) (all : List OwnNet) (source : GhostSource) (s : def.Instance) (k : ℕ)
        → IsHere all source s scope table.now row.now → HasDriven all source s table.now driven.now
        → HasTerminals all s k first (outputs_of table.now 1 (connection_values (view_connections connections.now))) (inputs_of table.now 1 (connection_values (view_connections connections.now)))
        → udp < length udps → delays < length listed
        → Adds listed udps all made.old made.new (def_elements.terminal_elements source s place k (Udp (udp_at udps udp).rows (udp_at udps udp).first (delays_at listed delays))
        (outputs_of table.now 1 (connection_values (view_connections connections.now))) (inputs_of table.now 1 (connection_values (view_connections connections.now))))) }
    ensures refused { IfErr result (λ r. (listed : List ghost_delays.GateDelays) (udps : List ghost_udps.UdpUse) (source : GhostSource) (s : def.Instance) (k : ℕ)
        → RefusesCount (length made.old.elements.items + length (def_elements.terminal_elements source s place k (Udp (udp_at udps udp).rows (udp_at udps udp).first (delays_at listed delays))
        (outputs_of table.now 1 (connection_values (view_connections connections.now))) (inputs_of table.now 1 (connection_values (view_connections connections.now))))) r) }
{
    room.left.clear();
    room.right.clear();
    add_connected(table, connections, 1, room)?;
    let kind = ElementKind::Udp { udp, delays };
    add_terminal_elements(
        table,
        scope,
        place,
        kind,
        &room.left,
        &room.right,
        first,
        row,
        driven,
        made,
    )
}
