// An index of variables.
ghost use Rattle.std.specs.Prelude.{◌≡◌, ◌<◌, ◌^◌, IfOk, OnOk, length, map};
ghost use Rattle.sg_circuit.specs.Seen.{circuit_seen, variable_seen};
ghost use Rattle.annotation_index.specs.Index.{AreNamed, list_at};
ghost use Rattle.annotation_places.specs.Indexes.{Holds, HoldsVariables, is_called};

use annotation_index::Index;
use sg_circuit::{Parts, Variable};
use sg_text::NoMemory;
use std::alloc::Global;

// How many there are, where their places are numbers of 32 bits.
fn count_of(variables: &[Variable]) -> Result<u32, NoMemory>
    ensures { IfOk result (λ count. count ≡ length variables.now) }
{
    let Ok(count) = u32::try_from(variables.len()) else {
        return Err(NoMemory);
    };
    Ok(count)
}

// Those of a scope more.
fn add_variables<'a>(
    index: &mut Index<'a>,
    alloc: Global,
    scope: u32,
    variables: &'a [Variable],
) -> Result<(), NoMemory>
    requires named { AreNamed index.old }
    ensures { OnOk result (Holds (list_at index.old) index.new (is_called scope (map (λ v. variable_seen v) variables.now)) (length variables.now)) }
{
    let count = count_of(variables)?;
    for place in 0..count {
        index.add(alloc, scope, variables[place as usize].name.bytes(), place)?;
    }
    Ok(())
}

/// Variables, by places among those of their scope, by the scope and their name.
pub fn variables<'a>(alloc: Global, parts: &'a Parts) -> Result<Index<'a>, NoMemory>
    requires few { length parts.now.scopes.items < 2 ^ 31 }
    ensures { IfOk result (λ index. HoldsVariables (circuit_seen parts.now) index (length parts.now.scopes.items)) }
{
    let mut index = Index::new(alloc);
    for number in 0..parts.scopes.len() as u32 {
        add_variables(
            &mut index,
            alloc,
            number,
            &parts.scopes[number as usize].variables,
        )?;
    }
    Ok(index)
}
