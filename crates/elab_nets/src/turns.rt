// The rows of one instance, and the outer rows of those in it.
ghost use Rattle.std.specs.Prelude.{◌≡◌, ◌≤◌, ◌<◌, ◌+◌, ◌^◌, ◌&&◌, ◌==◌, [], ℕ, OnOk, IfErr, is_some, length};
ghost use Rattle.sg_delay.specs.declared.corners.Corner as ghost_corner;
ghost use Rattle.vl_tree.specs.Tree.{Module as SeenModule, Source};
ghost use Rattle.elab_model.specs.Members as def_members;
ghost use Rattle.elab_model.specs.Nets.{nets};
ghost use Rattle.elab_modules.specs.Ready.{IsPrepared};
ghost use Rattle.elab_numbering.specs.Refusals.{RefusesCount};
ghost use Rattle.elab_laws.specs.NumberLaws.{nets_before};
ghost use Rattle.elab_nets.specs.Turns.{AreThrough, AreUpTo, HasTurn, IsBegun, IsGiven, IsMine};

use crate::Rows;
use crate::member_bits::TerminalBits;
use crate::members::add_member;
use crate::own::add_own;
use crate::parts::row_of;
use elab_hierarchy::{Definitions, Placed};
use elab_model::ElabKind;
use elab_modules::{Library, Prepared, find_module};
use elab_variables::Table;
use sg_circuit::NetId;
use sg_text::Refused;
use std::alloc::Global;

// The nets of an instance's own, and its inner row.
fn add_inner(
    alloc: Global,
    table: &Table,
    number: u32,
    leaf: bool,
    rows: &mut Rows,
) -> Result<(), Refused<ElabKind>>
    requires few { length rows.old.nets.items ≤ 2 ^ 22 }
    ensures few { length rows.new.nets.items ≤ 2 ^ 22 }
    ensures begun { OnOk result ((source : Source) (top : SeenModule) (corner : ghost_corner.Corner) (mine : IsMine source top corner rows.old table.now number leaf) → IsBegun source top mine.s rows.old rows.new) }
    ensures refused { IfErr result (λ r. (source : Source) (top : SeenModule) (corner : ghost_corner.Corner) → IsMine source top corner rows.old table.now number leaf → RefusesCount (length (nets source top)) r) }
{
    let Some(outside) = row_of(
        &rows.outer_starts,
        &rows.outer,
        number as usize,
        table.bits(),
    ) else {
        return Ok(());
    };
    rows.starts.push(rows.inner.len())?;
    add_own(
        alloc,
        table,
        number,
        leaf,
        outside,
        &mut rows.inner,
        &mut rows.nets,
    )
}

// The nets of the members of an instance, and the outer rows of its children.
fn add_members(
    alloc: Global,
    definitions: &Definitions,
    library: &Library,
    instances: &[Placed],
    prepared: &Prepared,
    number: u32,
    bits: &mut TerminalBits,
    rows: &mut Rows,
) -> Result<(), Refused<ElabKind>>
    requires instances { length instances.now ≤ 2 ^ 22 }
    requires number { number < 2 ^ 22 }
    requires few { length rows.old.nets.items ≤ 2 ^ 22 }
    ensures few { length rows.new.nets.items ≤ 2 ^ 22 }
    ensures through { OnOk result ((top : SeenModule) (corner : ghost_corner.Corner) (turn : HasTurn definitions.now top corner library.now instances.now rows.old prepared.now.table number)
        → IsPrepared prepared.now turn.s.step.definition → length rows.old.nets.items ≡ nets_before definitions.now turn.before turn.s []
        → (after : ℕ) × AreThrough definitions.now top turn.before turn.s (length (def_members.members turn.s.step.definition)) after rows.old rows.new) }
    ensures refused { IfErr result (λ r. (top : SeenModule) (corner : ghost_corner.Corner) (turn : HasTurn definitions.now top corner library.now instances.now rows.old prepared.now.table number)
        → IsPrepared prepared.now turn.s.step.definition → length rows.old.nets.items ≡ nets_before definitions.now turn.before turn.s [] → RefusesCount (length (nets definitions.now top)) r) }
{
    let mut next = number + 1;
    for (index, member) in prepared.members.iter().enumerate() {
        rows.firsts.push(rows.nets.len() as NetId)?;
        next = add_member(
            alloc,
            definitions,
            library,
            instances,
            prepared,
            number,
            index,
            *member,
            next,
            bits,
            rows,
        )?;
    }
    Ok(())
}

// Whether an instance lies in another, and none in it.
fn is_leaf(placed: &Placed, number: u32) -> bool
    requires { number < 2 ^ 22 }
    ensures { result ≡ (is_some placed.now.parent && placed.now.end == number + 1) }
{
    placed.parent.is_some() && placed.end == number + 1
}

/// Adds the rows of the instance of a number, which comes next, and the outer rows of those in it. Its module is ready where the lists stand for a hierarchy.
pub fn add_instance(
    alloc: Global,
    definitions: &Definitions,
    library: &Library,
    instances: &[Placed],
    number: usize,
    bits: &mut TerminalBits,
    rows: &mut Rows,
) -> Result<(), Refused<ElabKind>>
    requires instances { length instances.now ≤ 2 ^ 22 }
    requires within { number < length instances.now }
    requires few { length rows.old.nets.items ≤ 2 ^ 22 }
    ensures few { length rows.new.nets.items ≤ 2 ^ 22 }
    ensures done { OnOk result ((top : SeenModule) (corner : ghost_corner.Corner) → IsGiven definitions.now top corner library.now instances.now → AreUpTo definitions.now top rows.old number
        → AreUpTo definitions.now top rows.new (number + 1)) }
    ensures refused { IfErr result (λ r. (top : SeenModule) (corner : ghost_corner.Corner) → IsGiven definitions.now top corner library.now instances.now → AreUpTo definitions.now top rows.old number
        → RefusesCount (length (nets definitions.now top)) r) }
{
    let placed = &instances[number];
    let Some(prepared) = find_module(library, placed.definition) else {
        return Ok(());
    };
    let number = number as u32;
    let leaf = is_leaf(placed, number);
    add_inner(alloc, &prepared.table, number, leaf, rows)?;
    rows.member_starts.push(rows.firsts.len())?;
    rows.end_starts.push(rows.ends.len())?;
    add_members(
        alloc,
        definitions,
        library,
        instances,
        prepared,
        number,
        bits,
        rows,
    )?;
    rows.firsts.push(rows.nets.len() as NetId)?;
    Ok(())
}
