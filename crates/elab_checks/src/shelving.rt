// The checks of a module, with their conditions in a table.
ghost use Rattle.std.specs.Prelude.{◌≡◌, ◌++◌, ℕ, All, List, IfOk, IfSome, OnOk, length, map};
ghost use Rattle.cond_expr.specs.Condition.{Condition};
ghost use Rattle.elab_model.specs.Lates.{DelayedCopy};
ghost use Rattle.elab_model.specs.Names.{Variable};
ghost use Rattle.specify_checks.specs.SeenOfPaths.{IsRead};
ghost use Rattle.specify_checks.specs.Seen.{check_seen, IsFitting, IsSpelledCheck, IsSpelledEvent};
ghost use Rattle.elab_paths.specs.Shelving.{AreRead, ListGrows};
ghost use Rattle.elab_checks.specs.Ready.{check_ready, IsReadyCheck};
ghost use Rattle.elab_checks.specs.Shelving.{IsShelvedCheck, IsShelvedCondition, IsShelvedDatum, IsShelvedEvent};

use cond_expr::Expr;
use sg_circuit::CheckKind;
use sg_logic::Edge;
use sg_text::{NoMemory, Place};
use specify_checks::{CheckLimits, ModuleCheck, ModuleEvent};
use std::alloc::Global;

/// The events of a terminal: its bit, a place in the row of bits of the module's table, the index that the text names, and the place of its condition in the table of conditions.
#[derive(Clone, Copy, Debug, PartialEq)]
pub struct ReadyEvent {
    pub bit: usize,
    pub index: Option<i64>,
    pub edge: Option<Edge>,
    pub condition: Option<usize>,
}

/// A timing check of a module; limits and threshold are in ticks (IEEE 1364-2005, clause 15).
#[derive(Clone, Copy, Debug, PartialEq)]
pub struct ReadyCheck {
    pub place: Place,
    pub kind: CheckKind,
    pub refer: ReadyEvent,
    pub datum: Option<ReadyEvent>,
    pub limits: CheckLimits,
    pub threshold: u64,
    /// The reg that a violation toggles, a place in the row of bits.
    pub notifier: Option<usize>,
    /// The delayed copies that it sees, by their places among those of the module.
    pub copies: Option<[usize; 2]>,
}

// The place of a condition in the table, once it is there.
#[tactic(auto, using(crate::proofs::Shelved::condition_put, crate::proofs::Shelved::condition_none))]
fn shelve_condition(
    condition: Option<Expr>,
    conditions: &mut Vec<Expr>,
) -> Result<Option<usize>, NoMemory>
    ensures kept { OnOk result (ListGrows conditions.old.items conditions.new.items) }
    ensures condition { IfOk result (IsShelvedCondition conditions.new.items condition) }
    ensures read { OnOk result (IfSome condition (λ c. IsRead c.tokens c) → AreRead conditions.old.items → AreRead conditions.new.items) }
{
    match condition {
        Some(condition) => {
            let place = conditions.len();
            conditions.push(condition)?;
            Ok(Some(place))
        }
        None => Ok(None),
    }
}

#[tactic(auto, using(crate::proofs::Shelved::event_made))]
fn shelve_event(event: ModuleEvent, conditions: &mut Vec<Expr>) -> Result<ReadyEvent, NoMemory>
    ensures kept { OnOk result (ListGrows conditions.old.items conditions.new.items) }
    ensures event { IfOk result (IsShelvedEvent conditions.new.items event) }
    ensures read { OnOk result (IsSpelledEvent event → AreRead conditions.old.items → AreRead conditions.new.items) }
{
    let condition = shelve_condition(event.condition, conditions)?;
    Ok(ReadyEvent {
        bit: event.bit,
        index: event.index,
        edge: event.edge,
        condition,
    })
}

fn shelve_datum(
    event: Option<ModuleEvent>,
    conditions: &mut Vec<Expr>,
) -> Result<Option<ReadyEvent>, NoMemory>
    ensures kept { OnOk result (ListGrows conditions.old.items conditions.new.items) }
    ensures event { IfOk result (IsShelvedDatum conditions.new.items event) }
    ensures read { OnOk result (IfSome event IsSpelledEvent → AreRead conditions.old.items → AreRead conditions.new.items) }
{
    match event {
        Some(event) => Ok(Some(shelve_event(event, conditions)?)),
        None => Ok(None),
    }
}

#[tactic(auto, using(crate::proofs::Shelved::check_made, crate::proofs::Shelved::grows_both, crate::proofs::Shelved::read_check))]
fn shelve_check(check: ModuleCheck, conditions: &mut Vec<Expr>) -> Result<ReadyCheck, NoMemory>
    ensures kept { OnOk result (ListGrows conditions.old.items conditions.new.items) }
    ensures check { IfOk result (IsShelvedCheck conditions.new.items check) }
    ensures read { OnOk result (IsSpelledCheck check → AreRead conditions.old.items → AreRead conditions.new.items) }
{
    let refer = shelve_event(check.refer, conditions)?;
    let datum = shelve_datum(check.datum, conditions)?;
    Ok(ReadyCheck {
        place: check.place,
        kind: check.kind,
        refer,
        datum,
        limits: check.limits,
        threshold: check.threshold,
        notifier: check.notifier,
        copies: check.copies,
    })
}

/// The checks of a module, whose conditions come behind those of the table. Takes memory in proportion to the checks.
pub fn shelve(
    alloc: Global,
    checks: Vec<ModuleCheck>,
    conditions: &mut Vec<Expr>,
) -> Result<Vec<ReadyCheck>, NoMemory>
    ensures kept { OnOk result (ListGrows conditions.old.items conditions.new.items) }
    ensures checks { IfOk result (λ list. (vs : List Variable) (cs : List DelayedCopy) (more : List Condition) → map (check_ready (conditions.new.items ++ more) vs cs) list.items ≡ map (check_seen vs cs) checks.items) }
    ensures named { IfOk result (λ list. (vs : List Variable) (copies : ℕ) → All (IsFitting vs copies) checks.items → All (IsReadyCheck vs (length conditions.new.items) copies) list.items) }
    ensures read { OnOk result (All IsSpelledCheck checks.items → AreRead conditions.old.items → AreRead conditions.new.items) }
{
    let mut list = Vec::new(alloc);
    for check in checks {
        list.push(shelve_check(check, conditions)?)?;
    }
    Ok(list)
}
