// The first line of a cell: its type and its instance.
ghost use Rattle.std.specs.Prelude.{◌≡◌, ◌∷◌, [], ◌++◌, ◌<◌, All, IfOk, OnOk, length};
ghost use Rattle.sg_circuit.specs.Closed.{IsClosed};
ghost use Rattle.sg_circuit.specs.Seen.{circuit_seen};
ghost use Rattle.written_text.specs.Instances.{chain};
ghost use Rattle.written_model.specs.Names.{names_to};
ghost use Rattle.written_model.specs.Text.{cell_line, instance_text};
ghost use Rattle.written_model.specs.Tree.{cell_type_of};

use crate::words::push_name;
use sg_circuit::Parts;
use std::alloc::{AllocError, Global};

// The bytes of a module's name that may stand between quotes.
fn push_cell_type(text: &mut Vec<u8>, name: &[u8]) -> Result<(), AllocError>
    ensures { OnOk result (text.new.items ≡ text.old.items ++ cell_type_of name.now) }
{
    for byte in name {
        push_quotable(text, *byte)?;
    }
    Ok(())
}

fn push_quotable(text: &mut Vec<u8>, byte: u8) -> Result<(), AllocError>
    ensures { OnOk result (text.new.items ≡ text.old.items ++ cell_type_of (byte ∷ [])) }
{
    if byte == b'"' || byte == b'\\' {
        return Ok(());
    }
    text.push(byte)?;
    Ok(())
}

// A scope and those that it stands in, but for the top, the nearest first.
fn chain_of(alloc: Global, parts: &Parts, scope: u32) -> Result<Vec<u32>, AllocError>
    requires closed { IsClosed (circuit_seen parts.now) }
    requires scope { scope < length parts.now.scopes.items }
    ensures chain { IfOk result (λ v. v.items ≡ chain (circuit_seen parts.now) scope) }
    ensures within { IfOk result (λ v. All (λ s. s < length parts.now.scopes.items) v.items) }
{
    let mut scopes = Vec::new(alloc);
    let mut next = scope;
    while let Some(parent) = parts.scopes[next as usize].parent {
        scopes.push(next)?;
        next = parent;
    }
    Ok(scopes)
}

// The names that lead to a scope, behind a blank, if there are some.
fn push_instance(
    alloc: Global,
    text: &mut Vec<u8>,
    parts: &Parts,
    scope: u32,
) -> Result<(), AllocError>
    requires closed { IsClosed (circuit_seen parts.now) }
    requires scope { scope < length parts.now.scopes.items }
    ensures { OnOk result (text.new.items ≡ text.old.items ++ instance_text (names_to (circuit_seen parts.now) scope)) }
{
    let mut left = chain_of(alloc, parts, scope)?;
    let mut mark = b' ';
    while let Some(next) = left.pop() {
        text.push(mark)?;
        push_name(text, parts.scopes[next as usize].name.bytes())?;
        mark = b'/';
    }
    Ok(())
}

/// Adds the first line of the cell of a scope.
pub fn push_cell_line(
    alloc: Global,
    text: &mut Vec<u8>,
    parts: &Parts,
    scope: u32,
) -> Result<(), AllocError>
    requires closed { IsClosed (circuit_seen parts.now) }
    requires scope { scope < length parts.now.scopes.items }
    ensures { OnOk result (text.new.items ≡ text.old.items ++ cell_line (circuit_seen parts.now) scope) }
{
    text.extend_from_slice(b"(CELL (CELLTYPE \"")?;
    push_cell_type(text, parts.scopes[scope as usize].module.bytes())?;
    text.extend_from_slice(b"\") (INSTANCE")?;
    push_instance(alloc, text, parts, scope)?;
    text.extend_from_slice(b")\n")
}
