// The timing checks of a module.
ghost use Rattle.std.specs.Prelude.{◌≡◌, ◌+◌, ◌&&◌, ◌∷◌, All, IfOk, is_none, flat_map, length, map, option_to_list};
ghost use Rattle.std.specs.Option.{option_map};
ghost use Rattle.std.specs.List.{AllByRecursion};
ghost use Rattle.vl_tree.specs.Tree.{Module as GhostModule};
ghost use Rattle.vl_tree.specs.Seen.{view_check, view_event, view_limit, view_module};
ghost use Rattle.elab_model.specs.Faults.{fault_if};
ghost use Rattle.elab_model.specs.declared.kinds.ElabKind.TheVariants.{BadTerminal};
ghost use Rattle.specify_model.specs.Blocks.{specify_items};
ghost use Rattle.specify_model.specs.CheckFaults as faults;
ghost use Rattle.specify_model.specs.Checks as def;
ghost use Rattle.specify_values.specs.Seen.{measured, values_of, view_checks};
ghost use Rattle.specify_values.specs.Telling.{Tells};
ghost use Rattle.specify_checks.specs.Copies.{copies_seen, IsCheckOf, IsReadable};
ghost use Rattle.specify_checks.specs.Seen.{check_seen, limits_seen, IsFitting, IsSpelledCheck};

use crate::copies::copies_of;
use crate::events::{ModuleEvent, event_of, some_event_of};
use crate::parts::parts_of;
use crate::regs::notifier_bit;
use elab_lates::ModuleCopies;
use elab_model::ElabKind;
use elab_variables::Table;
use sg_circuit::CheckKind;
use sg_text::{Place, Refused};
use specify_values::{
    Measure, Parameters, block_items, limit_ticks, specparam_values, threshold_ticks,
};
use std::alloc::Global;
use vl_tree::{Check, Event, Limit, Module};

/// The limits of a timing check in ticks, in the order of the text.
#[derive(Clone, Copy, Debug, PartialEq)]
pub struct CheckLimits {
    pub first: i64,
    /// `$setuphold` and `$recrem` have two.
    pub second: Option<i64>,
}

/// A timing check of a module (IEEE 1364-2005, clause 15).
#[derive(Drop)]
pub struct ModuleCheck {
    pub place: Place,
    pub kind: CheckKind,
    pub refer: ModuleEvent,
    pub datum: Option<ModuleEvent>,
    pub limits: CheckLimits,
    /// In ticks; without one it is 0.
    pub threshold: u64,
    /// The reg that a violation toggles, a place in the row of bits of the table.
    pub notifier: Option<usize>,
    /// The delayed copies of reference and data that `$setuphold` and `$recrem` see, by their places among those of the module.
    pub copies: Option<[usize; 2]>,
}

// A check of one event is without an edge.
fn lacks_edge(kind: CheckKind, reference: &Event) -> bool
    ensures { result ≡ (faults.wants_edge kind && is_none reference.now.edge) }
{
    match kind {
        CheckKind::Width => reference.edge.is_none(),
        CheckKind::Period => reference.edge.is_none(),
        _ => false,
    }
}

// Refuses such a check.
fn check_edge(kind: CheckKind, reference: &Event) -> Result<(), Refused<ElabKind>>
    ensures { Tells (fault_if (faults.wants_edge kind && is_none (view_event reference.now).edge) BadTerminal reference.now.place) result }
{
    if lacks_edge(kind, reference) {
        return Err(Refused::Fault {
            kind: ElabKind::BadTerminal,
            place: reference.place,
        });
    }
    Ok(())
}

// How many signals bear a limit of a kind, each once: those of the module that have delayed copies, where it may lie below 0.
fn bearers(kind: CheckKind, signals: usize) -> usize
    ensures { faults.weight_of signals kind ≡ result + 1 }
{
    match kind {
        CheckKind::Setuphold => signals,
        CheckKind::Recrem => signals,
        _ => 0,
    }
}

// The second limit, where there is one.
fn second_ticks(
    by: Measure,
    parameters: &Parameters,
    signals: usize,
    limit: &Option<Limit>,
) -> Result<Option<i64>, Refused<ElabKind>>
    ensures ticks { IfOk result (λ o. option_to_list o ≡ map (def.limit_ticks (measured by) (values_of parameters.now)) (option_to_list (option_map view_limit limit.now))) }
    ensures told { Tells (flat_map (faults.limit_faults (signals + 1) (measured by) (values_of parameters.now)) (option_to_list (option_map view_limit limit.now))) result }
{
    match limit {
        Some(second) => Ok(Some(limit_ticks(by, parameters, signals, second)?)),
        None => Ok(None),
    }
}

// The limits, in the order of the text.
fn limits_of(
    by: Measure,
    parameters: &Parameters,
    signals: usize,
    first: &Limit,
    second: &Option<Limit>,
) -> Result<CheckLimits, Refused<ElabKind>>
    ensures ticks { IfOk result (λ l. limits_seen l ≡ map (def.limit_ticks (measured by) (values_of parameters.now)) (view_limit first.now ∷ option_to_list (option_map view_limit second.now))) }
    ensures told { Tells (flat_map (faults.limit_faults (signals + 1) (measured by) (values_of parameters.now)) (view_limit first.now ∷ option_to_list (option_map view_limit second.now))) result }
{
    let first = limit_ticks(by, parameters, signals, first)?;
    let second = second_ticks(by, parameters, signals, second)?;
    Ok(CheckLimits { first, second })
}

fn some_threshold(
    by: Measure,
    parameters: &Parameters,
    threshold: &Option<Limit>,
) -> Result<u64, Refused<ElabKind>>
    ensures ticks { IfOk result (λ n. n ≡ def.threshold_ticks (measured by) (values_of parameters.now) (option_map view_limit threshold.now)) }
    ensures told { Tells (faults.threshold_faults (measured by) (values_of parameters.now) (option_map view_limit threshold.now)) result }
{
    match threshold {
        Some(limit) => threshold_ticks(by, parameters, limit),
        None => Ok(0),
    }
}

fn check_of(
    alloc: Global,
    by: Measure,
    table: &Table,
    copies: &ModuleCopies,
    parameters: &Parameters,
    text: &Check,
) -> Result<ModuleCheck, Refused<ElabKind>>
    requires asked { (m : GhostModule) × IsCheckOf m table.now copies.now (view_check text.now) }
    ensures check { IfOk result (λ c. check_seen table.now (copies_seen table.now copies.now) c ≡ def.module_check (measured by) table.now (values_of parameters.now) (view_check text.now)) }
    ensures fits { IfOk result (IsFitting table.now (length copies.now.copies.items)) }
    ensures spelled { IfOk result IsSpelledCheck }
    ensures told { Tells (faults.check_faults copies.now.signals (measured by) table.now (values_of parameters.now) (view_check text.now)) result }
{
    let parts = parts_of(text);
    check_edge(parts.kind, parts.reference)?;
    let refer = event_of(alloc, table, parts.reference)?;
    let datum = some_event_of(alloc, table, parts.data)?;
    let signals = bearers(parts.kind, copies.signals);
    let limits = limits_of(by, parameters, signals, &parts.first, &parts.second)?;
    let threshold = some_threshold(by, parameters, &parts.threshold)?;
    let notifier = notifier_bit(table, parts.notifier)?;
    let copies = copies_of(table, copies, text, &refer, &datum);
    Ok(ModuleCheck {
        place: parts.place,
        kind: parts.kind,
        refer,
        datum,
        limits,
        threshold,
        notifier,
        copies,
    })
}

// The checks of texts, in their order.
fn all_checks(
    alloc: Global,
    by: Measure,
    table: &Table,
    copies: &ModuleCopies,
    parameters: &Parameters,
    texts: Vec<&Check>,
) -> Result<Vec<ModuleCheck>, Refused<ElabKind>>
    requires asked { (m : GhostModule) × AllByRecursion (IsCheckOf m table.now copies.now) (view_checks texts.items) }
    ensures checks { IfOk result (λ list. map (check_seen table.now (copies_seen table.now copies.now)) list.items ≡ map (def.module_check (measured by) table.now (values_of parameters.now)) (view_checks texts.entry.items)) }
    ensures fits { IfOk result (λ list. All (IsFitting table.now (length copies.now.copies.items)) list.items) }
    ensures spelled { IfOk result (λ list. All IsSpelledCheck list.items) }
    ensures told { Tells (flat_map (faults.check_faults copies.now.signals (measured by) table.now (values_of parameters.now)) (view_checks texts.entry.items)) result }
{
    let mut checks = Vec::new(alloc);
    for text in texts {
        checks.push(check_of(alloc, by, table, copies, parameters, text)?)?;
    }
    Ok(checks)
}

/// The timing checks of a module, whose variables are those of the table and whose delayed copies of signals these are, in text order and in ticks of a corner (IEEE 1364-2005, clause 15). Refuses
/// what stands in a check: terminals, operands and notifiers that aren't declared (UnknownName), an index out of range, `$width` and `$period` without an edge and a notifier that is no reg
/// (BadTerminal), what isn't one bit (WidthMismatch), a condition nested too deep (TooDeep), a limit of 2^60 ticks and more, for `$setuphold` and `$recrem` once it is added up once more for each
/// signal of the module that has copies, or one of a specparam that there isn't (BadDelay). Of two specparams of one name the first holds. Takes memory and time in proportion to the blocks.
pub fn module_checks(
    alloc: Global,
    by: Measure,
    table: &Table,
    copies: &ModuleCopies,
    definition: &Module,
) -> Result<Vec<ModuleCheck>, Refused<ElabKind>>
    requires readable { IsReadable (view_module definition.now) table.now copies.now }
    ensures checks { IfOk result (λ list. map (check_seen table.now (copies_seen table.now copies.now)) list.items ≡ def.module_checks (measured by) table.now (specify_items (view_module definition.now))) }
    ensures fits { IfOk result (λ list. All (IsFitting table.now (length copies.now.copies.items)) list.items) }
    ensures spelled { IfOk result (λ list. All IsSpelledCheck list.items) }
    ensures told { Tells (faults.all_check_faults copies.now.signals (measured by) table.now (specify_items (view_module definition.now))) result }
{
    let items = block_items(alloc, definition)?;
    let parameters = specparam_values(alloc, &items.parameters)?;
    let checks = all_checks(alloc, by, table, copies, &parameters, items.checks)?;
    Ok(checks)
}
