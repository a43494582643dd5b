// The lines of limits that were taken as 0.
ghost use Rattle.std.specs.Prelude.{◌≡◌, ◌++◌, ◌==◌, OnOk, codes, flat_map, if◌then◌else◌};
ghost use Rattle.time_checks.specs.Parts.{part_number};
ghost use Rattle.run_report.specs.Report.{check_at, limit_part, part_word, path_of, terminal_text, terminals_text, zeroed_line};

use crate::violations::{datum_of, push_check_scope, push_terminal, word_of};
use sg_circuit::{Check, CheckKind, Circuit, Terminal, Zero};
use std::alloc::{AllocError, Global};
use time_checks::Part;
use wave_out::push_signed;

fn first_or(part: u32, first: Part, second: Part) -> Part
    ensures { result ≡ (if part == 0 then first else second) }
{
    if part == 0 { first } else { second }
}

// The part that a limit is, by its place in the check's text.
fn limit_part(kind: CheckKind, part: u32) -> Part
    ensures { result ≡ limit_part kind part }
{
    match kind {
        CheckKind::Setuphold => first_or(part, Part::Setup, Part::Hold),
        CheckKind::Recrem => first_or(part, Part::Recovery, Part::Removal),
        CheckKind::Setup => Part::Setup,
        CheckKind::Hold => Part::Hold,
        CheckKind::Recovery => Part::Recovery,
        CheckKind::Removal => Part::Removal,
        CheckKind::Skew => Part::Skew,
        CheckKind::Width => Part::Width,
        CheckKind::Period => Part::Period,
    }
}

// The kind of a check, that of a set-up check where there is none of the number.
fn kind_of(circuit: &Circuit, check: u32) -> CheckKind
    ensures { result ≡ (check_at circuit.now check).kind }
{
    match circuit.parts().checks.get(check as usize) {
        Some(check) => check.kind,
        None => CheckKind::Setup,
    }
}

// A blank and a terminal.
fn push_spaced(text: &mut Vec<u8>, terminal: &Terminal) -> Result<(), AllocError>
    ensures { OnOk result (text.new.items ≡ text.old.items ++ (codes " " ++ terminal_text terminal.now)) }
{
    text.push(b' ')?;
    push_terminal(text, terminal)
}

fn push_both(text: &mut Vec<u8>, check: &Check) -> Result<(), AllocError>
    ensures { OnOk result (text.new.items ≡ text.old.items ++ terminals_text check.now) }
{
    push_terminal(text, &check.refer)?;
    push_spaced(text, datum_of(check))
}

fn push_terminals(text: &mut Vec<u8>, circuit: &Circuit, check: u32) -> Result<(), AllocError>
    ensures { OnOk result (text.new.items ≡ text.old.items ++ terminals_text (check_at circuit.now check)) }
{
    match circuit.parts().checks.get(check as usize) {
        Some(check) => push_both(text, check),
        None => {
            text.push(b' ')?;
            Ok(())
        }
    }
}

// The scope and the word of the part.
fn push_zeroed_part(
    alloc: Global,
    text: &mut Vec<u8>,
    circuit: &Circuit,
    zero: Zero,
) -> Result<(), AllocError>
    ensures { OnOk result (text.new.items ≡ text.old.items ++ (codes "zeroed " ++ path_of circuit.now (check_at circuit.now zero.check).scope ++ codes " " ++ part_word (part_number (limit_part (check_at circuit.now zero.check).kind zero.part)))) }
{
    let part = limit_part(kind_of(circuit, zero.check), zero.part);
    text.extend_from_slice(b"zeroed ")?;
    push_check_scope(alloc, text, circuit, zero.check)?;
    text.push(b' ')?;
    text.extend_from_slice(word_of(part).as_bytes())?;
    Ok(())
}

fn push_zero(
    alloc: Global,
    text: &mut Vec<u8>,
    circuit: &Circuit,
    zero: Zero,
) -> Result<(), AllocError>
    ensures { OnOk result (text.new.items ≡ text.old.items ++ zeroed_line circuit.now zero) }
{
    push_zeroed_part(alloc, text, circuit, zero)?;
    text.push(b' ')?;
    push_terminals(text, circuit, zero.check)?;
    text.push(b' ')?;
    push_signed(text, zero.value)?;
    text.push(b'\n')?;
    Ok(())
}

/// Adds a line for each limit that was taken as 0.
pub fn push_zeroed(
    alloc: Global,
    text: &mut Vec<u8>,
    circuit: &Circuit,
    zeroed: &[Zero],
) -> Result<(), AllocError>
    ensures { OnOk result (text.new.items ≡ text.old.items ++ flat_map (zeroed_line circuit.now) zeroed.now) }
{
    for zero in zeroed {
        push_zero(alloc, text, circuit, *zero)?;
    }
    Ok(())
}
