// Gates as the statements of a module.
ghost use Rattle.std.specs.Prelude.{◌≡◌, ◌++◌, OnOk, map};
ghost use Rattle.fit_gates.specs.Gates.{seen};
ghost use Rattle.fit_gates.specs.Text as spelled;

use crate::gates::Gate;
use crate::terms::{Operand, sum};
use crate::writing::{Join, Naming, end_of, push_gate, push_operand, push_plain};
use sg_text::NoMemory;

fn is_wire(operand: Operand) -> bool
    ensures { result ≡ spelled.is_wire operand }
{
    match operand {
        Operand::Wire(_) => true,
        _ => false,
    }
}

// Adds a gate, behind the declaration of its output where this drives no net. The delay is that of what drives a net.
fn push_wired(
    text: &mut Vec<u8>,
    naming: &Naming<'_>,
    delay: &[u8],
    output: Operand,
    gate: &Gate,
) -> Result<(), NoMemory>
    ensures { OnOk result (text.new.items ≡ text.old.items ++ spelled.driven_text naming.now delay.now output (seen gate.now)) }
{
    if !is_wire(output) {
        return push_gate(text, naming, delay, output, gate);
    }
    text.extend_from_slice(b"wire ")?;
    push_plain(text, naming, output)?;
    text.extend_from_slice(b"; ")?;
    push_gate(text, naming, b"", output, gate)
}

fn push_gates(
    text: &mut Vec<u8>,
    naming: &Naming<'_>,
    delay: &[u8],
    gates: &[Gate],
) -> Result<(), NoMemory>
    ensures { OnOk result (text.new.items ≡ text.old.items ++ spelled.gates_text naming.now delay.now 0 (map seen gates.now)) }
{
    let mut rest = gates;
    let mut place = 0;
    while let [gate, behind @ ..] = rest {
        push_wired(text, naming, delay, end_of(naming.joins, place), gate)?;
        let next = sum(place, 1)?;
        place = next;
        rest = behind;
    }
    Ok(())
}

// Adds what drives a net that no gate drives.
fn push_join(
    text: &mut Vec<u8>,
    naming: &Naming<'_>,
    delay: &[u8],
    join: Join,
) -> Result<(), NoMemory>
    ensures { OnOk result (text.new.items ≡ text.old.items ++ spelled.source_text naming.now delay.now join) }
{
    if delay.is_empty() {
        text.extend_from_slice(b"assign ")?;
        push_operand(text, naming, join.target)?;
        text.extend_from_slice(b" = ")?;
        push_operand(text, naming, join.source)?;
        text.extend_from_slice(b"; ")?;
        return Ok(());
    }
    text.extend_from_slice(b"buf")?;
    text.extend_from_slice(delay)?;
    text.extend_from_slice(b" (")?;
    push_operand(text, naming, join.target)?;
    text.extend_from_slice(b", ")?;
    push_operand(text, naming, join.source)?;
    text.extend_from_slice(b"); ")?;
    Ok(())
}

fn push_unless_wire(
    text: &mut Vec<u8>,
    naming: &Naming<'_>,
    delay: &[u8],
    join: Join,
) -> Result<(), NoMemory>
    ensures { OnOk result (text.new.items ≡ text.old.items ++ spelled.join_text naming.now delay.now join) }
{
    if is_wire(join.source) {
        return Ok(());
    }
    push_join(text, naming, delay, join)
}

fn push_joins(
    text: &mut Vec<u8>,
    naming: &Naming<'_>,
    delay: &[u8],
    joins: &[Join],
) -> Result<(), NoMemory>
    ensures { OnOk result (text.new.items ≡ text.old.items ++ spelled.joins_text naming.now delay.now joins.now) }
{
    let mut rest = joins;
    while let [join, behind @ ..] = rest {
        push_unless_wire(text, naming, delay, *join)?;
        rest = behind;
    }
    Ok(())
}

/// Adds the gates and what else drives the nets that are joined to them, as statements with a blank behind each. A wire that
/// drives no net is declared before its gate. Each wire drives one net at most. The delay, `#1` or `#(1, 2)`, stands at
/// what drives a net.
pub fn push_statements(
    text: &mut Vec<u8>,
    naming: &Naming<'_>,
    delay: &[u8],
    gates: &[Gate],
) -> Result<(), NoMemory>
    ensures { OnOk result (text.new.items ≡ text.old.items ++ spelled.statements_text naming.now delay.now (map seen gates.now)) }
{
    push_gates(text, naming, delay, gates)?;
    push_joins(text, naming, delay, naming.joins)
}
