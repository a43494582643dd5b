// What is refused in the members of a module.
ghost use Rattle.std.specs.Prelude.{◌≡◌, ◌≤◌, ◌≤ℤ◌, ◌++◌, All, List, [], IfOk, OnOk, IfErr, flat_map, map};
ghost use Rattle.std.specs.List.{AllByRecursion};
ghost use Rattle.sg_delay.specs.declared.gates.GateDelays as ghost_delays;
ghost use Rattle.vl_tree.specs.Tree.{Module};
ghost use Rattle.elab_model.specs.Faults.{RefusesOneOf};
ghost use Rattle.elab_model.specs.Members as def;
ghost use Rattle.elab_model.specs.ModuleFaults.{all_member_faults};
ghost use Rattle.elab_variables.specs.Seen.{view_member};
ghost use Rattle.elab_modules.specs.Ready.{AreReady, IsPrepared, MemberReady, HasDelays, member_delays};
ghost use Rattle.elab_modules.specs.Telling.{Tells, TellsButDelay, GrowsBy, StandsFor, delay_of, most_of};
ghost use Rattle.elab_model.specs.TerminalFaults.{delay_faults};

use crate::assignments::{check_declared, check_sides};
use crate::delayed::check_delayed;
use crate::delays::{add_delays, add_entry, no_delays};
use crate::gates::check_gate;
use crate::instances::check_instance;
use crate::{Prepared, Ready};
use elab_bits::Bit;
use elab_hierarchy::Definitions;
use elab_model::ElabKind;
use elab_variables::Member;
use sg_delay::{Corner, GateDelays};
use sg_text::Refused;
use sg_time::Unit;
use std::alloc::Global;

// A primitive has two delays at most (IEEE 1364-2005, 8.6).
const PRIMITIVE_DELAYS: u8 = 2;

// What is wrong with a member but the delay of a gate or a primitive.
fn check_member(
    definitions: &Definitions,
    parts: &[Option<Ready>],
    prepared: &Prepared,
    member: &Member,
    bits: &mut Vec<Bit>,
) -> Result<(), Refused<ElabKind>>
    requires ready { AreReady definitions.now parts.now }
    requires named { MemberReady definitions.now parts.now (view_member member.now) }
    ensures { (m : Module) → IsPrepared prepared.now m → TellsButDelay definitions.now m (view_member member.now) result }
{
    let table = &prepared.table;
    match member {
        Member::Declared { name, value } => check_declared(table, *name, value, bits),
        Member::Assignment(join) => check_sides(table, join.place, &join.left, &join.right, bits),
        Member::Supply { .. } => Ok(()),
        Member::Path(_) => Ok(()),
        Member::Check(check) => check_delayed(table, check, bits),
        Member::Gate { kind, instance, .. } => check_gate(table, *kind, instance, bits),
        Member::Instance {
            definition,
            delay,
            instance,
        } => check_instance(
            definitions,
            parts,
            table,
            *definition,
            delay,
            instance,
            bits,
        ),
    }
}

// The place of a member's delays; most have none.
fn add_member(
    corner: Corner,
    tick: Unit,
    prepared: &Prepared,
    member: &Member,
    gate_delays: &mut Vec<GateDelays>,
) -> Result<u32, Refused<ElabKind>>
    requires precision { tick.power ≤ℤ prepared.now.definition.now.mark.scale.precision.power }
    requires counts { All (λ d. d.count ≤ 3) gate_delays.old.items }
    ensures counts { All (λ d. d.count ≤ 3) gate_delays.new.items }
    ensures kept { GrowsBy gate_delays.old.items gate_delays.new.items }
    ensures told { (m : Module) → IsPrepared prepared.now m → Tells (delay_faults (most_of (view_member member.now)) corner tick.power m (delay_of (view_member member.now))) result }
    ensures place { IfOk result (λ i. (m : Module) → IsPrepared prepared.now m → StandsFor gate_delays.new.items i (member_delays corner tick.power m (view_member member.now))) }
{
    let none = no_delays();
    let scale = prepared.definition.mark.scale;
    match member {
        Member::Declared { .. } => Ok(add_entry(none, gate_delays)?),
        Member::Assignment(_) => Ok(add_entry(none, gate_delays)?),
        Member::Supply { .. } => Ok(add_entry(none, gate_delays)?),
        Member::Path(_) => Ok(add_entry(none, gate_delays)?),
        Member::Check(_) => Ok(add_entry(none, gate_delays)?),
        Member::Gate { kind, delay, .. } => {
            let most = kind.most_delays();
            add_delays(most, corner, tick, scale, delay, gate_delays)
        }
        Member::Instance { delay, .. } => {
            add_delays(PRIMITIVE_DELAYS, corner, tick, scale, delay, gate_delays)
        }
    }
}

/// Looks at the members of a module and adds their delays to a table; answers each member's place in it. Refuses one of the faults of a member
/// (IEEE 1364-2005, clauses 5 to 8 and 12). Takes memory in proportion to the members.
pub fn check_members(
    alloc: Global,
    corner: Corner,
    tick: Unit,
    definitions: &Definitions,
    parts: &[Option<Ready>],
    prepared: &Prepared,
    gate_delays: &mut Vec<GateDelays>,
) -> Result<Vec<u32>, Refused<ElabKind>>
    requires ready { AreReady definitions.now parts.now }
    requires named { AllByRecursion (MemberReady definitions.now parts.now) (map view_member prepared.now.members.items) }
    requires precision { tick.power ≤ℤ prepared.now.definition.now.mark.scale.precision.power }
    requires counts { All (λ d. d.count ≤ 3) gate_delays.old.items }
    ensures counts { All (λ d. d.count ≤ 3) gate_delays.new.items }
    ensures kept { (more : List ghost_delays.GateDelays) × (gate_delays.new.items ≡ gate_delays.old.items ++ more) }
    ensures delays { IfOk result (λ list. (m : Module) → IsPrepared prepared.now m → HasDelays corner tick.power m gate_delays.new.items list.items) }
    ensures faultless { OnOk result ((m : Module) → IsPrepared prepared.now m → flat_map (all_member_faults definitions.now corner tick.power m) (def.members m) ≡ []) }
    ensures refused { IfErr result (λ r. (m : Module) → IsPrepared prepared.now m → RefusesOneOf (flat_map (all_member_faults definitions.now corner tick.power m) (def.members m)) r) }
{
    // In an empty table they stand first, for all members without delays.
    add_entry(no_delays(), gate_delays)?;
    let mut bits = Vec::new(alloc);
    let mut places = Vec::new(alloc);
    for member in &prepared.members {
        check_member(definitions, parts, prepared, member, &mut bits)?;
        let place = add_member(corner, tick, prepared, member, gate_delays)?;
        places.push(place)?;
    }
    Ok(places)
}
