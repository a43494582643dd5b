// Indexes of scopes.
ghost use Rattle.std.specs.Prelude.{◌≡◌, ◌<◌, ◌&&◌, ◌^◌, bytes_eq, IfOk, OnOk, length};
ghost use Rattle.sg_circuit.specs.Seen.{circuit_seen};
ghost use Rattle.annotation_model.specs.Scopes.{is_scope};
ghost use Rattle.annotation_index.specs.Index.{AreNamed};
ghost use Rattle.annotation_places.specs.Indexes.{HasMore, Holds, nothing, is_inside, is_of_module};

use annotation_index::Index;
use sg_circuit::{Parts, Scope};
use sg_text::NoMemory;
use std::alloc::Global;

// A scope more; the top stands in none.
fn add_inside<'a>(
    index: &mut Index<'a>,
    alloc: Global,
    scope: &'a Scope,
    number: u32,
) -> Result<(), NoMemory>
    requires named { AreNamed index.old }
    ensures { OnOk result (HasMore index.old index.new (λ o name. bytes_eq scope.now.name name && is_scope o scope.now.parent) number) }
{
    let Some(parent) = scope.parent else {
        return Ok(());
    };
    index.add(alloc, parent, scope.name.bytes(), number)
}

/// Instances by the scope in which they stand and their name.
pub fn instances<'a>(alloc: Global, parts: &'a Parts) -> Result<Index<'a>, NoMemory>
    requires few { length parts.now.scopes.items < 2 ^ 31 }
    ensures { IfOk result (λ index. Holds nothing index (is_inside (circuit_seen parts.now)) (length parts.now.scopes.items)) }
{
    let mut index = Index::new(alloc);
    for number in 0..parts.scopes.len() as u32 {
        add_inside(&mut index, alloc, &parts.scopes[number as usize], number)?;
    }
    Ok(index)
}

/// Scopes by their module.
pub fn modules<'a>(alloc: Global, parts: &'a Parts) -> Result<Index<'a>, NoMemory>
    requires few { length parts.now.scopes.items < 2 ^ 31 }
    ensures { IfOk result (λ index. Holds nothing index (is_of_module (circuit_seen parts.now)) (length parts.now.scopes.items)) }
{
    let mut index = Index::new(alloc);
    for number in 0..parts.scopes.len() as u32 {
        index.add(
            alloc,
            0,
            parts.scopes[number as usize].module.bytes(),
            number,
        )?;
    }
    Ok(index)
}
