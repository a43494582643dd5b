// The delays of gates.
ghost use Rattle.std.specs.Prelude.{◌≡◌, ◌≤◌, ◌≤ℤ◌, [], true, false, nat_lt, length, map, IfOk, OnOk, IfErr, IfSome, IfNone, option_map};
ghost use Rattle.std.specs.Option.{OnSome};
ghost use Rattle.sg_circuit.specs.Seen.{gate_delays_seen};
ghost use Rattle.vl_tree.specs.Seen.{view_delay, view_mtm};
ghost use Rattle.vl_tree.specs.Tree.{Module};
ghost use Rattle.vl_token.specs.Seen.{timescale};
ghost use Rattle.elab_model.specs.Delays.{delays_of, ticks_of};
ghost use Rattle.elab_model.specs.Faults.{RefusesOneOf};
ghost use Rattle.elab_model.specs.TerminalFaults.{delay_faults};
ghost use Rattle.elab_primitives.specs.Delays.{are_refused};

use elab_model::{ElabKind, ticks};
use sg_delay::{Corner, GateDelays};
use sg_text::Refused;
use sg_time::{Scale, Unit};
use vl_tree::{Delay, MinTypMax};

/// The delays that are written of a gate or a primitive, in ticks of a corner (IEEE 1364-2005, 7.14, 19.8). Refuses more than `most`, and one of 2^60 ticks or more
/// (BadDelay, at the delay). Takes no memory.
pub fn gate_delays(
    most: u8,
    corner: Corner,
    tick: Unit,
    scale: Scale,
    delay: &Option<Delay>,
) -> Result<GateDelays, Refused<ElabKind>>
    requires precision { tick.power ≤ℤ scale.precision.power }
    requires most { most ≤ 3 }
    ensures few { IfOk result (λ d. d.count ≤ 3) }
    ensures delays { IfOk result (λ d. (m : Module) → m.settings.scale ≡ timescale scale → gate_delays_seen d ≡ delays_of corner tick.power m (option_map view_delay delay.now)) }
    ensures faultless { OnOk result ((m : Module) → m.settings.scale ≡ timescale scale → delay_faults most corner tick.power m (option_map view_delay delay.now) ≡ []) }
    ensures refused { IfErr result (λ r. (m : Module) → m.settings.scale ≡ timescale scale → RefusesOneOf (delay_faults most corner tick.power m (option_map view_delay delay.now)) r) }
{
    let Some(delay) = delay else {
        return Ok(GateDelays {
            count: 0,
            at: [0; 3],
        });
    };
    match delays_of_values(most, corner, tick, scale, &delay.values) {
        Some(delays) => Ok(delays),
        None => Err(Refused::Fault {
            kind: ElabKind::BadDelay,
            place: delay.place,
        }),
    }
}

// None if there are more than `most`, or one is too long.
fn delays_of_values(
    most: u8,
    corner: Corner,
    tick: Unit,
    scale: Scale,
    values: &[MinTypMax],
) -> Option<GateDelays>
    requires precision { tick.power ≤ℤ scale.precision.power }
    requires most { most ≤ 3 }
    ensures few { IfSome result (λ d. d.count ≤ 3) }
    ensures delays { IfSome result (λ d. gate_delays_seen d ≡ map (ticks_of corner tick.power (timescale scale)) (map view_mtm values.now)) }
    ensures faultless { OnSome result (are_refused most (map (ticks_of corner tick.power (timescale scale)) (map view_mtm values.now)) ≡ false) }
    ensures refused { IfNone result (are_refused most (map (ticks_of corner tick.power (timescale scale)) (map view_mtm values.now)) ≡ true) }
{
    if are_too_many(most, values) {
        return None;
    }
    three_of_values(corner, tick, scale, values)
}

fn are_too_many(most: u8, values: &[MinTypMax]) -> bool
    ensures { result ≡ nat_lt most (length values.now) }
{
    values.len() > usize::from(most)
}

// None if there are more than three, or one is too long.
fn three_of_values(
    corner: Corner,
    tick: Unit,
    scale: Scale,
    values: &[MinTypMax],
) -> Option<GateDelays>
    requires { tick.power ≤ℤ scale.precision.power }
    ensures few { IfSome result (λ d. d.count ≤ 3) }
    ensures delays { IfSome result (λ d. gate_delays_seen d ≡ map (ticks_of corner tick.power (timescale scale)) (map view_mtm values.now)) }
    ensures faultless { OnSome result (are_refused 3 (map (ticks_of corner tick.power (timescale scale)) (map view_mtm values.now)) ≡ false) }
    ensures refused { IfNone result (are_refused 3 (map (ticks_of corner tick.power (timescale scale)) (map view_mtm values.now)) ≡ true) }
{
    match values {
        [] => Some(GateDelays {
            count: 0,
            at: [0; 3],
        }),
        [all] => {
            let all = ticks(corner, tick, scale, all)?;
            Some(GateDelays {
                count: 1,
                at: [all, 0, 0],
            })
        }
        [rise, fall] => {
            let rise = ticks(corner, tick, scale, rise)?;
            let fall = ticks(corner, tick, scale, fall)?;
            Some(GateDelays {
                count: 2,
                at: [rise, fall, 0],
            })
        }
        [rise, fall, off] => {
            let rise = ticks(corner, tick, scale, rise)?;
            let fall = ticks(corner, tick, scale, fall)?;
            let off = ticks(corner, tick, scale, off)?;
            Some(GateDelays {
                count: 3,
                at: [rise, fall, off],
            })
        }
        _ => None,
    }
}
