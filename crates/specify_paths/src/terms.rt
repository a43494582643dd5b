// What is wrong with a term.
ghost use Rattle.std.specs.Prelude.{◌≡◌, flat_map, map};
ghost use Rattle.vl_tree.specs.Seen.{view_term};
ghost use Rattle.specify_model.specs.Faults as faults;
ghost use Rattle.specify_values.specs.Telling.{Tells};
ghost use Rattle.specify_paths.specs.Words.{such_port};

use elab_bits::{add_bits, check_expression};
use elab_ends::expression_of;
use elab_model::ElabKind;
use elab_variables::Table;
use sg_circuit::Port;
use sg_text::Refused;
use std::alloc::Global;
use vl_tree::Term;

/// Refuses a term whose name isn't declared (UnknownName), or whose index is out of range (BadTerminal), at the name.
pub fn check_term(table: &Table, term: &Term) -> Result<(), Refused<ElabKind>>
    ensures { Tells (faults.term_faults table.now (view_term term.now)) result }
{
    check_expression(table, &expression_of(term))
}

/// The same of several.
pub fn check_terms(table: &Table, terms: &[Term]) -> Result<(), Refused<ElabKind>>
    ensures { Tells (flat_map (faults.term_faults table.now) (map view_term terms.now)) result }
{
    for term in terms {
        check_term(table, term)?;
    }
    Ok(())
}

/// Refuses a term that isn't one bit (WidthMismatch), and what `check_term` does.
pub fn check_operand(alloc: Global, table: &Table, term: &Term) -> Result<(), Refused<ElabKind>>
    ensures { Tells (faults.operand_faults table.now (view_term term.now)) result }
{
    check_term(table, term)?;
    let mut bits = Vec::new(alloc);
    add_bits(table, &expression_of(term), &mut bits)?;
    if bits.len() != 1 {
        return Err(Refused::Fault {
            kind: ElabKind::WidthMismatch,
            place: term.name.place,
        });
    }
    Ok(())
}

/// Which ports a side of a path has.
#[derive(Clone, Copy, Debug, PartialEq, Eq)]
pub enum Side {
    Input,
    Output,
}

fn is_such(side: Side, port: Port) -> bool
    ensures { result ≡ such_port side port }
{
    match (side, port) {
        (Side::Input, Port::Input) => true,
        (Side::Output, Port::Output) => true,
        _ => false,
    }
}

// Refuses a term that isn't such a port (BadTerminal), and what `check_term` does.
fn check_port(table: &Table, side: Side, term: &Term) -> Result<(), Refused<ElabKind>>
    ensures { Tells (faults.port_faults (such_port side) table.now (view_term term.now)) result }
{
    check_term(table, term)?;
    let Some(place) = table.find(term.name.text) else {
        return Ok(());
    };
    if is_such(side, table.row(place).port) {
        return Ok(());
    }
    Err(Refused::Fault {
        kind: ElabKind::BadTerminal,
        place: term.name.place,
    })
}

/// The same of several.
pub fn check_ports(table: &Table, side: Side, terms: &[Term]) -> Result<(), Refused<ElabKind>>
    ensures { Tells (flat_map (faults.port_faults (such_port side) table.now) (map view_term terms.now)) result }
{
    for term in terms {
        check_port(table, side, term)?;
    }
    Ok(())
}
