// The timing checks of instances, over nets.
ghost use Rattle.std.specs.Prelude.{◌≡◌, ◌<◌, ◌≤◌, ◌+◌, ◌∷◌, ◌++◌, ◌^◌, [], ℕ, List, All, Some, IfOk, IfErr, IfSome, OnOk, length, map, slice_get};
ghost use Rattle.std.specs.Option.{option_and_then, option_map};
ghost use Rattle.cond_expr.specs.Condition.{Condition};
ghost use Rattle.sg_delay.specs.declared.corners.Corner as ghost_corner;
ghost use Rattle.vl_tree.specs.Tree.{Module, Source};
ghost use Rattle.elab_model.specs.Delays.{tick_of};
ghost use Rattle.elab_model.specs.Drivers.{elements};
ghost use Rattle.elab_model.specs.Faults.{RefusesOneOf};
ghost use Rattle.elab_model.specs.Hierarchy.{Instance};
ghost use Rattle.elab_model.specs.Lates.{DelayedCopy};
ghost use Rattle.elab_model.specs.Nets.{OwnNet, nets};
ghost use Rattle.circuit_model.specs.CheckUses as def;
ghost use Rattle.circuit_model.specs.Faults.{over};
ghost use Rattle.circuit_model.specs.PathUses.{bit_number};
ghost use Rattle.elab_laws.specs.Handing.{all_bits};
ghost use Rattle.elab_numbering.specs.Refusals.{RefusesCount};
ghost use Rattle.elab_hierarchy.specs.declared.instances.Placed as ghost_placed;
ghost use Rattle.elab_paths.specs.Adding.{IsHere};
ghost use Rattle.elab_model.specs.Terms.{NetBit};
ghost use Rattle.elab_paths.specs.Uses.{IsRow};
ghost use Rattle.specify_checks.specs.Copies.{both_at};
ghost use Rattle.specify_checks.specs.Seen.{limits_seen};
ghost use Rattle.elab_checks.specs.Ready.{check_ready, event_ready, IsReadyCheck};
ghost use Rattle.elab_checks.specs.Standing.{AreGiven, IsStanding, checks_at};
ghost use Rattle.elab_checks.specs.Uses.{enabled_over, terminal_ready, AddsCheck, AreLates, AreUses, IsBindable, IsUsableCheck, IsUsableEvent};
ghost use Rattle.elab_checks.specs.declared.shelving.ReadyCheck as ghost_check;

use crate::modules::ReadyChecks;
use crate::shelving::{ReadyCheck, ReadyEvent};
use cond_expr::{BindFault, Bound, Expr};
use elab_hierarchy::Placed;
use elab_model::ElabKind;
use elab_paths::{Library, Operands, Rows, check_count, module_at, row_of};
use elab_variables::Table;
use sg_circuit::{Check, CheckConditions, CheckTiming, Event, FanOut, NetId, Terminal};
use sg_text::{NoMemory, Refused, Text};
use specify_checks::CheckLimits;
use std::alloc::Global;

/// The timing checks of a circuit, by instance and then in text order (IEEE 1364-2005, clause 15): how a report names each, what it looks for, and how its conditions are spelled.
#[derive(Drop)]
pub struct CheckTables {
    pub checks: Vec<Check>,
    pub timings: Vec<CheckTiming>,
    pub conditions: Vec<CheckConditions>,
}

// An instance: its number, the variables of its module, the nets of their bits, and the elements that delay the copies of the module's signals.
#[derive(Clone, Copy)]
struct Here<'m, 'a> {
    scope: u32,
    table: &'m Table<'a>,
    row: &'m [NetId],
    lates: &'m [u32],
}

// The condition at a place of the table, over nets.
fn bound_at(
    alloc: Global,
    here: Here,
    conditions: &[Expr],
    written: Option<usize>,
) -> Result<Option<Bound>, NoMemory>
    requires row { (net : NetBit → ℕ) × IsRow here.table.now here.row.now net }
    requires bindable { IsBindable here.table.now conditions.now written }
    ensures { IfOk result (λ bound. (net : NetBit → ℕ) → IsRow here.entry.table.now here.entry.row.now net → bound ≡ enabled_over net conditions.now here.entry.table.now written) }
{
    let place = match written {
        Some(place) => place,
        None => return Ok(None),
    };
    let operands = Operands {
        table: here.table,
        row: here.row,
    };
    match conditions[place].bind(alloc, &operands) {
        Ok(bound) => Ok(Some(bound)),
        Err(BindFault::NoMemory) => Err(NoMemory),
        Err(BindFault::Unknown { .. }) => unreachable!(),
    }
}

fn net_at(row: &[NetId], bit: usize) -> NetId
    requires { bit < length row.now }
    ensures { slice_get row.now bit ≡ Some result }
{
    row[bit]
}

fn event_of(
    alloc: Global,
    here: Here,
    conditions: &[Expr],
    event: ReadyEvent,
) -> Result<Event, NoMemory>
    requires row { (net : NetBit → ℕ) × IsRow here.table.now here.row.now net }
    requires usable { IsUsableEvent here.table.now conditions.now event }
    ensures { IfOk result (λ e. (net : NetBit → ℕ) → IsRow here.entry.table.now here.entry.row.now net → e ≡ def.event_of_use (def.event_use net (event_ready conditions.now here.entry.table.now event))) }
{
    let condition = bound_at(alloc, here, conditions, event.condition)?;
    Ok(Event {
        net: net_at(here.row, event.bit),
        edge: event.edge,
        condition,
    })
}

fn datum_of(
    alloc: Global,
    here: Here,
    conditions: &[Expr],
    event: Option<ReadyEvent>,
) -> Result<Option<Event>, NoMemory>
    requires row { (net : NetBit → ℕ) × IsRow here.table.now here.row.now net }
    requires usable { IfSome event (IsUsableEvent here.table.now conditions.now) }
    ensures { IfOk result (λ o. (net : NetBit → ℕ) → IsRow here.entry.table.now here.entry.row.now net
        → o ≡ option_map (λ e. def.event_of_use (def.event_use net (event_ready conditions.now here.entry.table.now e))) event) }
{
    match event {
        Some(event) => Ok(Some(event_of(alloc, here, conditions, event)?)),
        None => Ok(None),
    }
}

// A kind without a second limit has 0 in its place.
fn two_limits(limits: CheckLimits) -> [i64; 2]
    ensures { result ≡ def.two_limits (limits_seen limits) }
{
    [limits.first, limits.second.unwrap_or(0)]
}

// The elements that delay what a check sees.
fn lates_of(lates: &[u32], copies: Option<[usize; 2]>) -> Option<[u32; 2]>
    requires { IfSome copies (λ places. All (λ p. p < length lates.now) places) }
    ensures { (cs : List DelayedCopy) (late : DelayedCopy → ℕ) → AreLates cs lates.now late → result ≡ option_map (λ two. late two.0 ∷ late two.1 ∷ []) (option_map (both_at cs) copies) }
{
    let places = copies?;
    Some([lates[places[0]], lates[places[1]]])
}

fn timing_of(
    alloc: Global,
    here: Here,
    conditions: &[Expr],
    check: &ReadyCheck,
) -> Result<CheckTiming, NoMemory>
    requires row { (net : NetBit → ℕ) × IsRow here.table.now here.row.now net }
    requires usable { IsUsableCheck here.table.now conditions.now (length here.lates.now) check.now }
    ensures { IfOk result (λ t. (net : NetBit → ℕ) (late : DelayedCopy → ℕ) (cs : List DelayedCopy) → IsRow here.entry.table.now here.entry.row.now net → AreLates cs here.entry.lates.now late
        → t ≡ def.timing_of_use (def.check_use here.entry.scope net late (check_ready conditions.now here.entry.table.now cs check.now))) }
{
    let refer = event_of(alloc, here, conditions, check.refer)?;
    let datum = datum_of(alloc, here, conditions, check.datum)?;
    Ok(CheckTiming {
        kind: check.kind,
        refer,
        datum,
        limits: two_limits(check.limits),
        threshold: check.threshold,
        late: lates_of(here.lates, check.copies),
    })
}

// A terminal has the name of its bit's variable, and the index that the text names.
fn terminal_of(alloc: Global, table: &Table, event: ReadyEvent) -> Result<Terminal, NoMemory>
    requires { event.bit < length (all_bits table.now) }
    ensures { IfOk result (λ t. t ≡ terminal_ready table.now event) }
{
    let (variable, _) = table.bit(event.bit);
    let name = Text::copy(alloc, table.name(variable))?;
    Ok(Terminal {
        name,
        bit: event.index,
    })
}

fn datum_terminal(
    alloc: Global,
    table: &Table,
    event: Option<ReadyEvent>,
) -> Result<Option<Terminal>, NoMemory>
    requires { IfSome event (λ e. e.bit < length (all_bits table.now)) }
    ensures { IfOk result (λ o. o ≡ option_map (terminal_ready table.now) event) }
{
    match event {
        Some(event) => Ok(Some(terminal_of(alloc, table, event)?)),
        None => Ok(None),
    }
}

fn notifier_of(row: &[NetId], notifier: Option<usize>) -> Option<NetId>
    requires { IfSome notifier (λ i. i < length row.now) }
    ensures { result ≡ option_and_then (slice_get row.now) notifier }
{
    match notifier {
        Some(bit) => Some(net_at(row, bit)),
        None => None,
    }
}

fn check_of(alloc: Global, here: Here, check: &ReadyCheck) -> Result<Check, NoMemory>
    requires row { (net : NetBit → ℕ) × IsRow here.table.now here.row.now net }
    requires ready { (conditions : ℕ) × ((copies : ℕ) × IsReadyCheck here.table.now conditions copies check.now) }
    ensures { IfOk result (λ k. (net : NetBit → ℕ) (late : DelayedCopy → ℕ) (cs : List DelayedCopy) (conditions : List Condition) → IsRow here.entry.table.now here.entry.row.now net
        → k ≡ def.check_of_use (def.check_use here.entry.scope net late (check_ready conditions here.entry.table.now cs check.now))) }
{
    let refer = terminal_of(alloc, here.table, check.refer)?;
    let datum = datum_terminal(alloc, here.table, check.datum)?;
    Ok(Check {
        scope: here.scope,
        kind: check.kind,
        refer,
        datum,
        notifier: notifier_of(here.row, check.notifier),
        place: check.place,
    })
}

fn condition_in(event: Option<ReadyEvent>) -> Option<usize>
    ensures { result ≡ option_and_then (λ e. e.condition) event }
{
    match event {
        Some(event) => event.condition,
        None => None,
    }
}

// One check more. Refuses more than 2^22 (TooMany).
fn add_check(
    alloc: Global,
    here: Here,
    conditions: &[Expr],
    check: &ReadyCheck,
    made: &mut CheckTables,
) -> Result<(), Refused<ElabKind>>
    requires row { (net : NetBit → ℕ) × IsRow here.table.now here.row.now net }
    requires usable { IsUsableCheck here.table.now conditions.now (length here.lates.now) check.now }
    ensures added { OnOk result (AddsCheck conditions.now here.entry.table.now here.entry.row.now here.entry.lates.now here.entry.scope check.now made.old made.new) }
    ensures few { OnOk result (length made.new.checks.items ≤ 2 ^ 22) }
    ensures refused { IfErr result (λ r. (more : ℕ) → RefusesCount (length made.old.checks.items + 1 + more) r) }
{
    check_count(made.checks.len())?;
    let own = check_of(alloc, here, check)?;
    let timing = timing_of(alloc, here, conditions, check)?;
    made.checks.push(own)?;
    made.timings.push(timing)?;
    made.conditions.push(CheckConditions {
        refer: check.refer.condition,
        datum: condition_in(check.datum),
    })?;
    Ok(())
}

// The checks of an instance.
fn add_checks(
    alloc: Global,
    here: Here,
    conditions: &[Expr],
    checks: &[ReadyCheck],
    made: &mut CheckTables,
) -> Result<(), Refused<ElabKind>>
    requires row { (net : NetBit → ℕ) × IsRow here.table.now here.row.now net }
    requires usable { All (IsUsableCheck here.table.now conditions.now (length here.lates.now)) checks.now }
    requires few { length made.old.checks.items ≤ 2 ^ 22 }
    ensures uses { OnOk result ((all : List OwnNet) (source : Source) (s : Instance) (late : DelayedCopy → ℕ) (cs : List DelayedCopy) (us : List def.CheckUse)
        → IsHere all source s here.entry.scope here.entry.table.now here.entry.row.now → AreLates cs here.entry.lates.now late → AreUses conditions.now made.old us
        → AreUses conditions.now made.new (us ++ map (λ k. def.check_use here.entry.scope (bit_number all source s) late (check_ready conditions.now here.entry.table.now cs k)) checks.now)) }
    ensures few { OnOk result (length made.new.checks.items ≤ 2 ^ 22) }
    ensures refused { IfErr result (λ r. (total : ℕ) → length made.old.checks.items + length checks.now ≤ total → RefusesCount total r) }
{
    for check in checks {
        add_check(alloc, here, conditions, check, made)?;
    }
    Ok(())
}

fn checks_at(modules: &ReadyChecks, definition: usize) -> &[ReadyCheck]
    requires { (list : List ghost_check.ReadyCheck) × (checks_at modules.now definition ≡ Some list) }
    ensures { checks_at modules.now definition ≡ Some result.now }
{
    match &modules.checks[definition] {
        Some(checks) => checks,
        None => unreachable!(),
    }
}

// The checks of the instance of a number.
fn add_instance(
    alloc: Global,
    library: &Library,
    modules: &ReadyChecks,
    conditions: &[Expr],
    rows: &Rows,
    lates: &FanOut,
    number: usize,
    placed: &Placed,
    made: &mut CheckTables,
) -> Result<(), Refused<ElabKind>>
    requires at { (source : Source) × ((top : Module) × ((corner : ghost_corner.Corner) × ((list : List ghost_placed.Placed) × ((s : Instance)
        × IsStanding source top corner library.now modules.now conditions.now list rows.now lates.now number placed.now s)))) }
    requires few { length made.old.checks.items ≤ 2 ^ 22 }
    ensures uses { OnOk result ((source : Source) (top : Module) (corner : ghost_corner.Corner) (list : List ghost_placed.Placed) (s : Instance) (us : List def.CheckUse)
        → IsStanding source top corner library.now modules.now conditions.now list rows.now lates.now number placed.now s
        → AreUses conditions.now made.old us → AreUses conditions.now made.new (us ++ def.check_uses_of (nets source top) (elements source top corner) source corner (tick_of source top) s)) }
    ensures few { OnOk result (length made.new.checks.items ≤ 2 ^ 22) }
    ensures refused { IfErr result (λ r. (source : Source) (top : Module) (corner : ghost_corner.Corner) (list : List ghost_placed.Placed) (s : Instance)
        → IsStanding source top corner library.now modules.now conditions.now list rows.now lates.now number placed.now s
        → (total : ℕ) → length made.old.checks.items + length (def.check_uses_of (nets source top) (elements source top corner) source corner (tick_of source top) s) ≤ total → RefusesCount total r) }
{
    let prepared = module_at(library, placed.definition);
    let here = Here {
        scope: number as u32,
        table: &prepared.table,
        row: row_of(rows, number, prepared.table.bits()),
        lates: lates.of(number as u32),
    };
    let checks = checks_at(modules, placed.definition);
    add_checks(alloc, here, conditions, checks, made)
}

/// The timing checks of instances, by instance and then in text order (IEEE 1364-2005, clause 15), with the modules' checks, their conditions in the table, the nets of the instances'
/// bits, and the numbers of the elements that delay signals of each instance, in order (15.8). Refuses more than 2^22 (TooMany, at the first byte of the first file). Takes memory in proportion to the checks of all instances.
pub fn circuit_checks(
    alloc: Global,
    library: &Library,
    modules: &ReadyChecks,
    conditions: &[Expr],
    instances: &[Placed],
    rows: &Rows,
    lates: &FanOut,
) -> Result<CheckTables, Refused<ElabKind>>
    requires given { (source : Source) × ((top : Module) × ((corner : ghost_corner.Corner) × AreGiven source top corner library.now modules.now conditions.now instances.now rows.now lates.now)) }
    ensures uses { IfOk result (λ made. (source : Source) (top : Module) (corner : ghost_corner.Corner) → AreGiven source top corner library.now modules.now conditions.now instances.now rows.now lates.now
        → AreUses conditions.now made (def.check_uses source top corner)) }
    ensures few { IfOk result (λ made. length made.checks.items ≤ 2 ^ 22) }
    ensures refused { IfErr result (λ r. (source : Source) (top : Module) (corner : ghost_corner.Corner) → AreGiven source top corner library.now modules.now conditions.now instances.now rows.now lates.now
        → RefusesOneOf (over (length (def.check_uses source top corner))) r) }
{
    let mut made = CheckTables {
        checks: Vec::new(alloc),
        timings: Vec::new(alloc),
        conditions: Vec::new(alloc),
    };
    for (number, placed) in instances.iter().enumerate() {
        add_instance(
            alloc, library, modules, conditions, rows, lates, number, placed, &mut made,
        )?;
    }
    Ok(made)
}
