// The instances of modules in each module.
ghost use Rattle.std.specs.Prelude.{◌≡◌, ◌++◌, IfOk, OnOk, option_to_list, length, map, filter_map};
ghost use Rattle.std.specs.List.{enumerate_from};
ghost use Rattle.vl_tree.specs.Seen.{view_instance, view_module, view_part};
ghost use Rattle.elab_model.specs.Definitions.{module_of};
ghost use Rattle.elab_model.specs.Hierarchy as def;
ghost use Rattle.elab_variables.specs.Seen.{view_member};
ghost use Rattle.elab_hierarchy.specs.Children.{AreAllWithin, AreChildren, AreWithin, IsChildAnswer, IsTree, part_children};

use crate::Definitions;
use elab_variables::{Member, members};
use sg_text::NoMemory;
use std::alloc::Global;
use vl_tree::{Instance, Module, Part};

/// An instance of a module in a module.
#[derive(Clone, Copy, Debug)]
pub struct Child<'t, 'a> {
    /// The place of its module among the definitions.
    pub definition: usize,
    /// Which member it is.
    pub member: usize,
    pub text: &'t Instance<'a>,
}

/// The instances of modules in each definition, by its place.
pub fn all_children<'t, 'a>(
    alloc: Global,
    definitions: &Definitions<'t, 'a>,
) -> Result<Vec<Vec<Child<'t, 'a>>>, NoMemory>
    ensures tree { IfOk result (λ all. IsTree definitions.now all.items) }
    ensures within { IfOk result (λ all. AreAllWithin (length all.items) all.items) }
{
    let mut all = Vec::with_capacity(alloc, definitions.len())?;
    for part in definitions.parts() {
        let children = children_of_part(alloc, definitions, part)?;
        all.push(children)?;
    }
    Ok(all)
}

fn children_of_part<'t, 'a>(
    alloc: Global,
    definitions: &Definitions<'t, 'a>,
    part: &'t Part<'a>,
) -> Result<Vec<Child<'t, 'a>>, NoMemory>
    ensures children { IfOk result (λ list. AreChildren definitions.now list.items (part_children definitions.now (view_part part.now))) }
    ensures within { IfOk result (λ list. AreWithin (length definitions.now) list.items) }
{
    match part {
        Part::Module(module) => children_of(alloc, definitions, module),
        Part::Primitive(_) => Ok(Vec::new(alloc)),
    }
}

fn children_of<'t, 'a>(
    alloc: Global,
    definitions: &Definitions<'t, 'a>,
    definition: &'t Module<'a>,
) -> Result<Vec<Child<'t, 'a>>, NoMemory>
    ensures children { IfOk result (λ list. AreChildren definitions.now list.items (def.children_in definitions.now (view_module definition.now))) }
    ensures within { IfOk result (λ list. AreWithin (length definitions.now) list.items) }
{
    let list = members(alloc, definition)?;
    children_among(alloc, definitions, &list)
}

fn children_among<'t, 'a>(
    alloc: Global,
    definitions: &Definitions,
    members: &[Member<'t, 'a>],
) -> Result<Vec<Child<'t, 'a>>, NoMemory>
    ensures children { IfOk result (λ list. AreChildren definitions.now list.items (filter_map (λ i. def.child_of_member definitions.now i.0 i.1) (enumerate_from 0 (map view_member members.now)))) }
    ensures within { IfOk result (λ list. AreWithin (length definitions.now) list.items) }
{
    let mut children = Vec::new(alloc);
    for (number, member) in members.iter().enumerate() {
        add_child(child_of(definitions, number, member), &mut children)?;
    }
    Ok(children)
}

fn add_child<'t, 'a>(
    child: Option<Child<'t, 'a>>,
    children: &mut Vec<Child<'t, 'a>>,
) -> Result<(), NoMemory>
    ensures { OnOk result (children.new.items ≡ children.old.items ++ option_to_list child.entry) }
{
    if let Some(child) = child {
        children.push(child)?;
    }
    Ok(())
}

fn child_of<'t, 'a>(
    definitions: &Definitions,
    number: usize,
    member: &Member<'t, 'a>,
) -> Option<Child<'t, 'a>>
    ensures { IsChildAnswer definitions.now (def.child_of_member definitions.now number (view_member member.now)) result }
{
    match member {
        Member::Instance {
            definition,
            instance,
            ..
        } => child_at(definitions, definition.text, number, instance),
        _ => None,
    }
}

fn child_at<'t, 'a>(
    definitions: &Definitions,
    name: &[u8],
    number: usize,
    text: &'t Instance<'a>,
) -> Option<Child<'t, 'a>>
    ensures { IsChildAnswer definitions.now (def.child_of (module_of definitions.now name.now) number (view_instance text.now)) result }
{
    match definitions.module(name) {
        Some(definition) => Some(Child {
            definition,
            member: number,
            text,
        }),
        None => None,
    }
}
