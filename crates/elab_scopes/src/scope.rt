// One scope.
ghost use Rattle.std.specs.Prelude.{◌≡◌, ◌<◌, [], List, IfOk};
ghost use Rattle.std.specs.Option.{option_map};
ghost use Rattle.sg_circuit.specs.Seen.{scope_seen};
ghost use Rattle.vl_tree.specs.Seen.{view_module, view_name};
ghost use Rattle.vl_tree.specs.Tree.{Source};
ghost use Rattle.elab_model.specs.Hierarchy as def;
ghost use Rattle.elab_model.specs.Hierarchy.{Instance, Step, text_of};
ghost use Rattle.elab_model.specs.HierarchyFaults.{past_limit};
ghost use Rattle.elab_model.specs.Nets.{OwnNet};
ghost use Rattle.elab_model.specs.Scopes.{scope_of};
ghost use Rattle.elab_hierarchy.specs.Placing.{IsPlaced, SaysStep};
ghost use Rattle.elab_scopes.specs.Here.{IsHere};

use crate::here::Here;
use crate::variables::variables_in;
use elab_hierarchy::Placed;
use sg_circuit::Scope;
use sg_text::{NoMemory, Text};
use std::alloc::Global;
use vl_tree::{Module, Name};

/// The scope of the instance of this number. Takes memory in proportion to its bits.
pub fn scope_in(
    alloc: Global,
    number: usize,
    placed: &Placed,
    here: &Here,
) -> Result<Scope, NoMemory>
    requires { number < usize.MAX }
    ensures { IfOk result (λ scope. (all : List OwnNet) (source : Source) (s : Instance) → IsHere all source s here.now → IsPlaced source placed.now s → number ≡ s.step.number → past_limit source s ≡ []
        → scope_seen scope ≡ scope_of all source s) }
{
    let definition = here.prepared.definition;
    let name = name_of(alloc, placed, definition)?;
    let module = Text::copy(alloc, definition.name.text)?;
    let variables = variables_in(alloc, here)?;
    Ok(Scope {
        parent: placed.parent,
        name,
        module,
        scale: definition.mark.scale,
        leaf: is_leaf(placed, number),
        variables,
    })
}

// Whether it isn't the top, and no instance lies in it.
fn is_leaf(placed: &Placed, number: usize) -> bool
    requires { number < usize.MAX }
    ensures { (source : Source) (s : Instance) → IsPlaced source placed.now s → number ≡ s.step.number → past_limit source s ≡ [] → result ≡ def.is_leaf source s }
{
    placed.parent.is_some() && placed.end as usize == number + 1
}

// The name of an instance; the top has that of its module.
fn name_of(alloc: Global, placed: &Placed, definition: &Module) -> Result<Text, NoMemory>
    ensures { IfOk result (λ name. (s : Step) → SaysStep placed.now.text s → view_module definition.now ≡ s.definition → name ≡ s.name) }
{
    match placed.text {
        Some(text) => Text::copy(alloc, text_in(text.name)),
        None => Text::copy(alloc, definition.name.text),
    }
}

fn text_in<'a>(name: Option<Name<'a>>) -> &'a [u8]
    ensures { result.now ≡ text_of (option_map view_name name.entry) }
{
    match name {
        Some(name) => name.text,
        None => b"",
    }
}
