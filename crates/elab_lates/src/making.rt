// The copies for which the members of a module ask, one after another.
ghost use Rattle.std.specs.Prelude.{◌≡◌, ◌++◌, ◌∷◌, [], List, IfOk, OnOk, IfSome, map, option_to_list};
ghost use Rattle.sg_text.specs.declared.places.Place as place;
ghost use Rattle.vl_tree.specs.Seen.{view_check};
ghost use Rattle.vl_tree.specs.Tree.{Module};
ghost use Rattle.elab_lates.specs.Copies.{AreCopies};
ghost use Rattle.elab_lates.specs.Seen.{IsCopyInRow, placed_seen};
ghost use Rattle.elab_lates.specs.Words.{HasAsked};
ghost use Rattle.elab_model.specs.Lates as def;
ghost use Rattle.elab_model.specs.Members as model;
ghost use Rattle.elab_model.specs.Names.{variables};
ghost use Rattle.elab_variables.specs.Seen.{view_member};

use crate::{DelayedCopy, ModuleCopies, PlacedCopy, copy_of};
use elab_variables::{Member, Table};
use indexmap::IndexSet;
use sg_text::NoMemory;
use std::alloc::Global;
use vl_tree::Check;

// What was asked for so far.
#[derive(Drop)]
struct Asked {
    copies: Vec<PlacedCopy>,
    index: IndexSet<DelayedCopy>,
    signals: IndexSet<usize>,
}

// Adds a copy that is new.
fn add_copy(copy: PlacedCopy, asked: &mut Asked) -> Result<(), NoMemory>
    ensures { OnOk result ((m : Module) (before : List (place.Place × def.DelayedCopy)) → IsCopyInRow (variables m) copy.copy → HasAsked m before asked.old
        → HasAsked m (before ++ placed_seen (variables m) copy ∷ []) asked.new) }
{
    if !asked.index.insert(copy.copy)? {
        return Ok(());
    }
    asked.signals.insert(copy.copy.signal)?;
    asked.copies.push(copy)?;
    Ok(())
}

fn add_if(copy: Option<PlacedCopy>, asked: &mut Asked) -> Result<(), NoMemory>
    ensures { OnOk result ((m : Module) (before : List (place.Place × def.DelayedCopy)) → IfSome copy (λ c. IsCopyInRow (variables m) c.copy) → HasAsked m before asked.old
        → HasAsked m (before ++ map (placed_seen (variables m)) (option_to_list copy)) asked.new) }
{
    match copy {
        Some(copy) => add_copy(copy, asked),
        None => Ok(()),
    }
}

// A check that takes limits below 0 asks for a copy of its reference, and then for one of its data.
fn add_check(alloc: Global, table: &Table, check: &Check, asked: &mut Asked) -> Result<(), NoMemory>
    ensures { OnOk result ((m : Module) (before : List (place.Place × def.DelayedCopy)) → table.now ≡ variables m → HasAsked m before asked.old
        → HasAsked m (before ++ def.copies (variables m) (model.check (view_check check.now))) asked.new) }
{
    let Check::TwoLimits {
        place,
        reference,
        data,
        delayed_reference,
        delayed_data,
        ..
    } = check
    else {
        return Ok(());
    };
    let refer = copy_of(alloc, table, *place, reference, delayed_reference)?;
    add_if(refer, asked)?;
    let datum = copy_of(alloc, table, *place, data, delayed_data)?;
    add_if(datum, asked)
}

fn add_member(
    alloc: Global,
    table: &Table,
    member: &Member,
    asked: &mut Asked,
) -> Result<(), NoMemory>
    ensures { OnOk result ((m : Module) (before : List (place.Place × def.DelayedCopy)) → table.now ≡ variables m → HasAsked m before asked.old
        → HasAsked m (before ++ def.copies (variables m) (view_member member.now)) asked.new) }
{
    let Member::Check(check) = member else {
        return Ok(());
    };
    add_check(alloc, table, check, asked)
}

/// The copies for which a module's timing checks ask, of its table and its members. Takes memory and work in proportion to the members.
pub fn module_copies(
    alloc: Global,
    table: &Table,
    members: &[Member],
) -> Result<ModuleCopies, NoMemory>
    ensures { IfOk result (λ c. (m : Module) → table.now ≡ variables m → map view_member members.now ≡ model.members m → AreCopies m c) }
{
    let mut asked = Asked {
        copies: Vec::new(alloc),
        index: IndexSet::new(alloc),
        signals: IndexSet::new(alloc),
    };
    let mut starts = Vec::new(alloc);
    for member in members {
        starts.push(asked.copies.len())?;
        add_member(alloc, table, member, &mut asked)?;
    }
    starts.push(asked.copies.len())?;
    let signals = asked.signals.len();
    let Asked { copies, index, .. } = asked;
    Ok(ModuleCopies {
        copies,
        starts,
        signals,
        index,
    })
}
