// What is refused in gates.
ghost use Rattle.std.specs.Prelude.{◌≡◌, ◌≤◌, IsTrue, flat_map};
ghost use Rattle.vl_tree.specs.Seen.{view_expression, view_gate_instance};
ghost use Rattle.elab_model.specs.Elements as def;
ghost use Rattle.elab_model.specs.ModuleFaults as def_faults;
ghost use Rattle.elab_modules.specs.Telling.{Tells, joined_faults};
ghost use Rattle.elab_modules.specs.Connecting.{gate_faults};

use crate::terminals::check_joined;
use elab_bits::Bit;
use elab_model::ElabKind;
use elab_variables::Table;
use sg_logic::GateKind;
use sg_text::Refused;
use vl_tree::{Expression, GateInstance};

// Whether a gate may have so many terminals: an output and an input at least, or an output, an input and a control (IEEE 1364-2005, 7.2, 7.3, 7.4).
fn takes_terminals(kind: GateKind, terminals: usize) -> bool
    ensures count { result ≡ def_faults.takes_terminals kind terminals }
    ensures some { IsTrue result → 1 ≤ terminals }
{
    match kind {
        GateKind::Bufif0 | GateKind::Bufif1 | GateKind::Notif0 | GateKind::Notif1 => terminals == 3,
        _ => terminals >= 2,
    }
}

/// How many of so many terminals of a gate are outputs (IEEE 1364-2005, 7.2 to 7.4).
pub fn output_count(kind: GateKind, terminals: usize) -> usize
    ensures count { result ≡ def.output_count kind terminals }
    ensures within { 1 ≤ terminals → result ≤ terminals }
{
    match kind {
        GateKind::Buf | GateKind::Not => terminals.saturating_sub(1),
        _ => 1,
    }
}

// Terminals of one bit each.
fn check_terminals(
    table: &Table,
    terminals: &[Expression],
    are_outputs: bool,
    bits: &mut Vec<Bit>,
) -> Result<(), Refused<ElabKind>>
    ensures { Tells (flat_map (λ e. joined_faults table.now 1 are_outputs (view_expression e)) terminals.now) result }
{
    for terminal in terminals {
        check_joined(table, terminal, 1, are_outputs, bits)?;
    }
    Ok(())
}

/// Refuses a gate that doesn't take as many terminals (BadTerminal, at the instance), and terminals for their names and indices, for more bits than one, and at an output for a constant.
pub fn check_gate(
    table: &Table,
    kind: GateKind,
    instance: &GateInstance,
    bits: &mut Vec<Bit>,
) -> Result<(), Refused<ElabKind>>
    ensures { Tells (gate_faults table.now kind (view_gate_instance instance.now)) result }
{
    let terminals = &instance.terminals;
    let count = terminals.len();
    if !takes_terminals(kind, count) {
        return Err(Refused::Fault {
            kind: ElabKind::BadTerminal,
            place: instance.place,
        });
    }
    let (outputs, inputs) = terminals.split_at(output_count(kind, count));
    check_terminals(table, outputs, true, bits)?;
    check_terminals(table, inputs, false, bits)
}
