// The scopes of all instances.
ghost use Rattle.std.specs.Prelude.{◌≡◌, ◌<◌, ◌++◌, ◌∷◌, [], List, IfOk, OnOk, map};
ghost use Rattle.sg_delay.specs.declared.corners.Corner as ghost_corner;
ghost use Rattle.sg_circuit.specs.Seen.{scope_seen};
ghost use Rattle.vl_tree.specs.Tree.{Module, Source};
ghost use Rattle.elab_model.specs.Hierarchy as def;
ghost use Rattle.elab_model.specs.HierarchyFaults.{past_limit};
ghost use Rattle.elab_model.specs.Nets.{OwnNet, nets};
ghost use Rattle.elab_model.specs.Scopes.{scope_of};
ghost use Rattle.elab_hierarchy.specs.Placing.{ArePlaced, tree_faults};
ghost use Rattle.elab_nets.specs.Reached.{IsLibrary};
ghost use Rattle.elab_nets.specs.Rows.{HaveRows};
ghost use Rattle.elab_scopes.specs.Here.{Stands};

use crate::here::here_at;
use crate::scope::scope_in;
use elab_hierarchy::{Definitions, Placed};
use elab_nets::{Library, Rows};
use sg_circuit::Scope;
use sg_text::NoMemory;
use std::alloc::Global;

/// The scopes of the instances below a top: one an instance, with its variables and their nets (IEEE 1364-2005, 12.7). Takes memory in proportion to the bits of all
/// instances.
pub fn scopes_of(
    alloc: Global,
    definitions: &Definitions,
    library: &Library,
    instances: &[Placed],
    rows: &Rows,
) -> Result<Vec<Scope>, NoMemory>
    ensures { IfOk result (λ scopes. (top : Module) (corner : ghost_corner.Corner) → ArePlaced definitions.now instances.now (def.instances definitions.now top)
        → IsLibrary definitions.now corner top library.now → HaveRows definitions.now top rows.now → tree_faults definitions.now top ≡ []
        → map (λ s. scope_seen s) scopes.items ≡ map (scope_of (nets definitions.now top) definitions.now) (def.instances definitions.now top)) }
{
    let mut scopes = Vec::new(alloc);
    for (number, placed) in instances.iter().enumerate() {
        add_scope(alloc, library, rows, number, placed, &mut scopes)?;
    }
    Ok(scopes)
}

// The scope of one instance more.
fn add_scope(
    alloc: Global,
    library: &Library,
    rows: &Rows,
    number: usize,
    placed: &Placed,
    scopes: &mut Vec<Scope>,
) -> Result<(), NoMemory>
    requires { number < usize.MAX }
    ensures { OnOk result ((source : Source) (top : Module) (corner : ghost_corner.Corner) (ss : List def.Instance) (all : List OwnNet) (s : def.Instance)
        → Stands source top corner library.now rows.now ss all number placed.now s → past_limit source s ≡ []
        → map (λ c. scope_seen c) scopes.new.items ≡ map (λ c. scope_seen c) scopes.old.items ++ scope_of all source s ∷ []) }
{
    let Some(here) = here_at(library, rows, number, placed) else {
        return Ok(());
    };
    let scope = scope_in(alloc, number, placed, &here)?;
    scopes.push(scope)?;
    Ok(())
}
