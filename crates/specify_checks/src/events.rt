// The events of terminals.
ghost use Rattle.std.specs.Prelude.{◌≡◌, ◌<◌, IfOk, IfSome, length};
ghost use Rattle.std.specs.Option.{option_map};
ghost use Rattle.vl_tree.specs.Seen.{view_event, view_term};
ghost use Rattle.elab_laws.specs.Handing.{all_bits};
ghost use Rattle.specify_model.specs.CheckFaults as faults;
ghost use Rattle.specify_model.specs.Checks as def;
ghost use Rattle.specify_model.specs.Conditions.{first_bit, tokens};
ghost use Rattle.specify_model.specs.Faults.{operand_faults};
ghost use Rattle.elab_model.specs.Terms.{term_bits};
ghost use Rattle.elab_ends.specs.Seen.{bit_seen};
ghost use Rattle.specify_paths.specs.Seen.{IsRead};
ghost use Rattle.specify_values.specs.Telling.{Tells};
ghost use Rattle.specify_checks.specs.Seen.{enabling_seen, event_seen, IsSpelledEvent};

use cond_expr::Expr;
use elab_ends::terms_bits;
use elab_model::ElabKind;
use elab_variables::Table;
use sg_logic::Edge;
use sg_text::Refused;
use specify_paths::{check_operand, condition_of, option_edge};
use std::alloc::Global;
use vl_tree::{Event, Select, Term};

/// The events of a terminal (IEEE 1364-2005, 15.1, 15.4, 15.6): its bit, a place in the row of bits of the table, and the index that the text names.
#[derive(Drop)]
pub struct ModuleEvent {
    pub bit: usize,
    pub index: Option<i64>,
    /// The changes of the bit that are events; without an edge each is.
    pub edge: Option<Edge>,
    /// They are events only where it enables them.
    pub condition: Option<Expr>,
}

// The bit of a terminal. Refuses what `check_operand` does.
fn terminal_bit(alloc: Global, table: &Table, term: &Term) -> Result<usize, Refused<ElabKind>>
    ensures bit { IfOk result (λ i. bit_seen table.now i ≡ first_bit (term_bits table.now (view_term term.now))) }
    ensures row { IfOk result (λ i. i < length (all_bits table.now)) }
    ensures told { Tells (operand_faults table.now (view_term term.now)) result }
{
    check_operand(alloc, table, term)?;
    let bits = terms_bits(alloc, table, &[*term])?;
    Ok(bits[0])
}

fn index_in(select: Option<Select>) -> Option<i64>
    ensures { result ≡ def.index_in select }
{
    match select {
        None => None,
        Some(Select::Bit(index)) => Some(index),
        Some(Select::Part { left, .. }) => Some(left),
    }
}

// The condition that enables events.
fn enabling(alloc: Global, table: &Table, event: &Event) -> Result<Option<Expr>, Refused<ElabKind>>
    ensures condition { IfOk result (λ c. option_map (enabling_seen table.now) c ≡ option_map (λ ws. def.enabled_by table.now (tokens ws)) (view_event event.now).condition) }
    ensures spelled { IfOk result (λ c. IfSome c (λ e. IsRead e.tokens e)) }
    ensures told { Tells (faults.event_condition_faults table.now (view_event event.now)) result }
{
    match &event.condition {
        Some(words) => Ok(Some(condition_of(alloc, table, event.place, words)?)),
        None => Ok(None),
    }
}

/// The events of a terminal. Refuses a terminal or an operand of its condition that isn't declared (UnknownName), whose index is out of range (BadTerminal) or that isn't one bit
/// (WidthMismatch), at the name, and a condition nested too deep (TooDeep, at its first word). Takes memory in proportion to the condition.
pub fn event_of(
    alloc: Global,
    table: &Table,
    event: &Event,
) -> Result<ModuleEvent, Refused<ElabKind>>
    ensures event { IfOk result (λ e. event_seen table.now e ≡ def.event_of table.now (view_event event.now)) }
    ensures row { IfOk result (λ e. e.bit < length (all_bits table.now)) }
    ensures spelled { IfOk result IsSpelledEvent }
    ensures told { Tells (faults.event_faults table.now (view_event event.now)) result }
{
    let bit = terminal_bit(alloc, table, &event.term)?;
    let condition = enabling(alloc, table, event)?;
    Ok(ModuleEvent {
        bit,
        index: index_in(event.term.select),
        edge: option_edge(&event.edge),
        condition,
    })
}

/// The same of a terminal that there may be.
pub fn some_event_of(
    alloc: Global,
    table: &Table,
    event: Option<&Event>,
) -> Result<Option<ModuleEvent>, Refused<ElabKind>>
    ensures event { IfOk result (λ o. option_map (event_seen table.now) o ≡ option_map (def.event_of table.now) (option_map (λ e. view_event e.now) event.entry)) }
    ensures row { IfOk result (λ o. IfSome o (λ e. e.bit < length (all_bits table.now))) }
    ensures spelled { IfOk result (λ o. IfSome o IsSpelledEvent) }
    ensures told { Tells (faults.some_event_faults table.now (option_map (λ e. view_event e.now) event.entry)) result }
{
    match event {
        Some(event) => Ok(Some(event_of(alloc, table, event)?)),
        None => Ok(None),
    }
}
