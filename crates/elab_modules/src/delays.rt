// The table of the delays that stand in modules.
ghost use Rattle.std.specs.Prelude.{◌≡◌, ◌≤◌, ◌<◌, ◌≤ℤ◌, ◌++◌, [], All, List, IfOk, IsTrue, length, option_map};
ghost use Rattle.sg_circuit.specs.Seen.{gate_delays_seen, delays_at};
ghost use Rattle.sg_delay.specs.declared.gates.GateDelays as ghost_delays;
ghost use Rattle.vl_token.specs.Seen.{timescale};
ghost use Rattle.vl_tree.specs.Seen.{view_delay};
ghost use Rattle.vl_tree.specs.Tree.{Module};
ghost use Rattle.elab_model.specs.Delays.{delays_of};
ghost use Rattle.elab_model.specs.TerminalFaults.{delay_faults};
ghost use Rattle.elab_modules.specs.Telling.{Tells, GrowsBy, StandsFor};

use elab_model::ElabKind;
use elab_primitives::gate_delays;
use sg_delay::{Corner, GateDelays};
use sg_text::{NoMemory, Refused};
use sg_time::{Scale, Unit};
use vl_tree::Delay;

/// No delays.
pub fn no_delays() -> GateDelays
    ensures few { result.count ≤ 3 }
    ensures none { gate_delays_seen result ≡ [] }
{
    GateDelays {
        count: 0,
        at: [0; 3],
    }
}

// The first entry of a table has no delays.
fn begins_with_none(table: &[GateDelays]) -> bool
    ensures { IsTrue result → (0 < length table.now) × (delays_at table.now 0 ≡ []) }
{
    match table {
        [first, ..] => first.count == 0,
        [] => false,
    }
}

/// The place of delays in a table, to which they are added. Those of most members are none, for which the first entry stands if it has none. A place past 2^32 is want of memory.
pub fn add_entry(delays: GateDelays, table: &mut Vec<GateDelays>) -> Result<u32, NoMemory>
    requires few { delays.count ≤ 3 }
    requires counts { All (λ d. d.count ≤ 3) table.old.items }
    ensures counts { All (λ d. d.count ≤ 3) table.new.items }
    ensures kept { GrowsBy table.old.items table.new.items }
    ensures place { IfOk result (λ i. StandsFor table.new.items i (gate_delays_seen delays)) }
{
    if delays.count == 0 && begins_with_none(table) {
        return Ok(0);
    }
    let Ok(place) = u32::try_from(table.len()) else {
        return Err(NoMemory);
    };
    table.push(delays)?;
    Ok(place)
}

/// Adds the delays that are written of a gate or a primitive, `most` of them, to a table; answers their place. Refuses what `gate_delays` does.
pub fn add_delays(
    most: u8,
    corner: Corner,
    tick: Unit,
    scale: Scale,
    delay: &Option<Delay>,
    table: &mut Vec<GateDelays>,
) -> Result<u32, Refused<ElabKind>>
    requires precision { tick.power ≤ℤ scale.precision.power }
    requires most { most ≤ 3 }
    requires counts { All (λ d. d.count ≤ 3) table.old.items }
    ensures counts { All (λ d. d.count ≤ 3) table.new.items }
    ensures kept { GrowsBy table.old.items table.new.items }
    ensures told { (m : Module) → m.settings.scale ≡ timescale scale → Tells (delay_faults most corner tick.power m (option_map view_delay delay.now)) result }
    ensures place { IfOk result (λ i. (m : Module) → m.settings.scale ≡ timescale scale → StandsFor table.new.items i (delays_of corner tick.power m (option_map view_delay delay.now))) }
{
    let delays = gate_delays(most, corner, tick, scale, delay)?;
    Ok(add_entry(delays, table)?)
}
