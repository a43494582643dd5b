// The variables of a scope.
ghost use Rattle.std.specs.Prelude.{◌≡◌, ◌<◌, List, IfOk, length, map};
ghost use Rattle.sg_circuit.specs.Seen.{variable_seen};
ghost use Rattle.vl_tree.specs.Tree.{Source};
ghost use Rattle.elab_model.specs.Hierarchy.{Instance};
ghost use Rattle.elab_model.specs.Names as def;
ghost use Rattle.elab_model.specs.Nets.{OwnNet};
ghost use Rattle.elab_model.specs.Scopes.{scope_variable};
ghost use Rattle.elab_variables.specs.Seen.{variable_at};
ghost use Rattle.elab_scopes.specs.Here.{IsHere};

use crate::bits::bits_of;
use crate::here::Here;
use sg_circuit::Variable;
use sg_text::{NoMemory, Text};
use std::alloc::Global;

/// The variables of an instance, with their nets. Takes memory in proportion to its bits.
pub fn variables_in(alloc: Global, here: &Here) -> Result<Vec<Variable>, NoMemory>
    ensures { IfOk result (λ list. (all : List OwnNet) (source : Source) (s : Instance) → IsHere all source s here.now
        → map (λ v. variable_seen v) list.items ≡ map (scope_variable all source s) (def.variables s.step.definition)) }
{
    let mut list = Vec::with_capacity(alloc, here.prepared.table.len())?;
    for place in 0..here.prepared.table.len() {
        list.push(variable_in(alloc, here, place)?)?;
    }
    Ok(list)
}

fn variable_in(alloc: Global, here: &Here, place: usize) -> Result<Variable, NoMemory>
    requires { place < length here.now.prepared.now.table }
    ensures { IfOk result (λ v. (all : List OwnNet) (source : Source) (s : Instance) → IsHere all source s here.now
        → variable_seen v ≡ scope_variable all source s (variable_at here.now.prepared.now.table place)) }
{
    let table = &here.prepared.table;
    let row = table.row(place);
    let name = Text::copy(alloc, table.name(place))?;
    let bits = Vec::from_slice(alloc, bits_of(here, place))?;
    Ok(Variable {
        name,
        range: row.range,
        reg: row.reg,
        port: row.port,
        bits,
    })
}
