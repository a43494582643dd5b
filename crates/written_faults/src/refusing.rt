// The faults of a scope.
ghost use Rattle.std.specs.Prelude.{◌≡◌, ◌<◌, ◌^◌, false, nat_le, IfErr, IfOk, OnOk, length};
ghost use Rattle.std.specs.List.{list_any};
ghost use Rattle.sg_circuit.specs.Closed.{IsClosed};
ghost use Rattle.sg_circuit.specs.Seen.{AreIndexed, circuit_seen};
ghost use Rattle.written_entries.specs.Groups.{AreGroups};
ghost use Rattle.written_model.specs.Faults.{AreFaultless, FaultStands, IsAmbiguous, is_off_grid, sizes};
ghost use Rattle.written_faults.specs.Classes.{AreClasses};
ghost use Rattle.written_faults.specs.Refusing.{IsFaultlessScope, IsKnown};

use crate::ambiguities::{are_checks_ambiguous, are_paths_ambiguous};
use crate::classes::classes_of;
use crate::depths::{deep_conditions, has_deep};
use crate::precisions::ticks_of;
use crate::sizes::{SizeFault, has_size};
use crate::weights::has_heavy;
use late_limits::signal_counts;
use sg_circuit::Parts;
use std::alloc::Global;
use written_entries::Groups;
use written_model::WriteError;

/// What is known of all conditions and scopes.
#[derive(Drop)]
struct Known {
    classes: Vec<usize>,
    deep: Vec<bool>,
    signals: Vec<u32>,
}

fn known_of(alloc: Global, parts: &Parts) -> Result<Known, WriteError>
    requires { IsClosed (circuit_seen parts.now) }
    ensures known { IfOk result (IsKnown parts.now) }
    ensures fault { IfErr result (FaultStands (circuit_seen parts.now)) }
{
    let classes = classes_of(alloc, &parts.conditions)?;
    let deep = deep_conditions(alloc, &parts.conditions)?;
    let signals = signal_counts(alloc, parts)?;
    Ok(Known {
        classes,
        deep,
        signals,
    })
}

fn refuse_sizes(parts: &Parts, groups: &Groups, scope: u32) -> Result<(), WriteError>
    requires closed { IsClosed (circuit_seen parts.now) }
    requires indexed { AreIndexed parts.now }
    requires groups { AreGroups parts.now groups.now }
    requires scope { scope < length parts.now.scopes.items }
    ensures on_grid { OnOk result (is_off_grid (circuit_seen parts.now) scope ≡ false) }
    ensures short { OnOk result (list_any (λ n. nat_le (10 ^ 18) n) (sizes (circuit_seen parts.now) scope) ≡ false) }
    ensures fault { IfErr result (FaultStands (circuit_seen parts.now)) }
{
    let precision = ticks_of(parts.scopes[scope as usize].scale.precision, parts.tick);
    if has_size(parts, groups, scope, SizeFault::OffGrid { precision }) {
        return Err(WriteError::OffGrid { scope });
    }
    if has_size(parts, groups, scope, SizeFault::TooLong) {
        return Err(WriteError::TooLong { scope });
    }
    Ok(())
}

fn refuse_keys(
    alloc: Global,
    parts: &Parts,
    groups: &Groups,
    classes: &[usize],
    scope: u32,
) -> Result<(), WriteError>
    requires closed { IsClosed (circuit_seen parts.now) }
    requires indexed { AreIndexed parts.now }
    requires groups { AreGroups parts.now groups.now }
    requires scope { scope < length parts.now.scopes.items }
    requires classes { AreClasses parts.now.conditions.items classes.now }
    ensures unambiguous { OnOk result (IsAmbiguous (circuit_seen parts.now) scope → ⊥) }
    ensures fault { IfErr result (FaultStands (circuit_seen parts.now)) }
{
    if are_paths_ambiguous(alloc, parts, groups, classes, scope)? {
        return Err(WriteError::Ambiguous { scope });
    }
    if are_checks_ambiguous(alloc, parts, groups, classes, scope)? {
        return Err(WriteError::Ambiguous { scope });
    }
    Ok(())
}

fn refuse_scope(
    alloc: Global,
    parts: &Parts,
    groups: &Groups,
    known: &Known,
    scope: u32,
) -> Result<(), WriteError>
    requires closed { IsClosed (circuit_seen parts.now) }
    requires indexed { AreIndexed parts.now }
    requires groups { AreGroups parts.now groups.now }
    requires known { IsKnown parts.now known.now }
    requires scope { scope < length parts.now.scopes.items }
    ensures faultless { OnOk result (IsFaultlessScope (circuit_seen parts.now) scope) }
    ensures fault { IfErr result (FaultStands (circuit_seen parts.now)) }
{
    refuse_sizes(parts, groups, scope)?;
    if has_deep(&known.deep, parts, groups, scope) {
        return Err(WriteError::TooDeep { scope });
    }
    let signals = known.signals[scope as usize];
    if has_heavy(&known.classes, parts, groups, signals, scope) {
        return Err(WriteError::TooLong { scope });
    }
    refuse_keys(alloc, parts, groups, &known.classes, scope)
}

/// Refuses a circuit that has a fault in a scope.
pub fn refuse(alloc: Global, parts: &Parts, groups: &Groups) -> Result<(), WriteError>
    requires closed { IsClosed (circuit_seen parts.now) }
    requires indexed { AreIndexed parts.now }
    requires groups { AreGroups parts.now groups.now }
    ensures faultless { OnOk result (AreFaultless (circuit_seen parts.now)) }
    ensures fault { IfErr result (FaultStands (circuit_seen parts.now)) }
{
    let known = known_of(alloc, parts)?;
    for scope in 0..parts.scopes.len() as u32 {
        refuse_scope(alloc, parts, groups, &known, scope)?;
    }
    Ok(())
}
