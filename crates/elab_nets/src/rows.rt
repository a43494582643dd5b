// The rows of instances.
ghost use Rattle.std.specs.Prelude.{◌≡◌, ◌≤◌, ◌^◌, [], IfOk, IfErr, length};
ghost use Rattle.sg_delay.specs.declared.corners.Corner as ghost_corner;
ghost use Rattle.vl_tree.specs.Tree.{Module, Source};
ghost use Rattle.elab_model.specs.Hierarchy as def;
ghost use Rattle.elab_model.specs.Names.{variables};
ghost use Rattle.elab_model.specs.Nets.{nets};
ghost use Rattle.elab_laws.specs.Handing.{all_bits};
ghost use Rattle.elab_numbering.specs.Refusals.{RefusesCount};
ghost use Rattle.elab_hierarchy.specs.Placing.{ArePlaced, tree_faults};
ghost use Rattle.elab_modules.specs.Reached.{IsLibrary};
ghost use Rattle.elab_nets.specs.Rows.{HaveRows};
ghost use Rattle.elab_nets.specs.Turns.{AreUpTo, IsGiven};

use crate::member_bits::TerminalBits;
use crate::turns::add_instance;
use elab_hierarchy::{Definitions, Placed};
use elab_model::ElabKind;
use elab_modules::{Library, find_module};
use sg_circuit::{Net, NetId};
use sg_text::{NoMemory, Refused};
use std::alloc::Global;

/// The nets of a circuit, and where the bits of its instances stand among them. The bits of an instance are those of its module's table, in its order.
#[derive(Debug, Drop)]
pub struct Rows {
    /// The nets in order; nothing drives them yet.
    pub nets: Vec<Net>,
    /// Where the row of each instance begins.
    pub starts: Vec<usize>,
    /// The net of each bit, row after row.
    pub inner: Vec<NetId>,
    /// Where the outer row of each instance begins.
    pub outer_starts: Vec<usize>,
    /// The net that lies outside of each bit: what the Leg of an input bit of a leaf reads, else the parent's net that the bit is bound to.
    pub outer: Vec<Option<NetId>>,
    /// Where the members of each instance begin among `firsts`; each instance has one entry more there than it has members.
    pub member_starts: Vec<usize>,
    /// The first of the nets that a member has and no variable names, or the next number where it has none.
    pub firsts: Vec<NetId>,
    /// Where the inner nets of each instance begin among `ends`.
    pub end_starts: Vec<usize>,
    /// The net that is driven inside in place of each output bit to which specify paths lead; instance after instance, in the order of the module's ends.
    pub ends: Vec<NetId>,
}

/// The nets of the instances below a top, numbered by the outermost instance that has the net, its variables first, then nets that no variable names, in text order. Refuses
/// more than 2^22 nets (TooMany, at the first byte of the first file). Takes memory in proportion to the bits of all instances.
pub fn rows_of(
    alloc: Global,
    definitions: &Definitions,
    library: &Library,
    instances: &[Placed],
) -> Result<Rows, Refused<ElabKind>>
    requires instances { length instances.now ≤ 2 ^ 22 }
    ensures rows { IfOk result (λ rows. (top : Module) (corner : ghost_corner.Corner) → ArePlaced definitions.now instances.now (def.instances definitions.now top) → IsLibrary definitions.now corner top library.now
        → tree_faults definitions.now top ≡ [] → HaveRows definitions.now top rows) }
    ensures refused { IfErr result (λ r. (top : Module) (corner : ghost_corner.Corner) → ArePlaced definitions.now instances.now (def.instances definitions.now top) → IsLibrary definitions.now corner top library.now
        → tree_faults definitions.now top ≡ [] → RefusesCount (length (nets definitions.now top)) r) }
{
    let mut rows = first_rows(alloc, library, instances)?;
    let mut bits = TerminalBits::new(alloc);
    for number in 0..instances.len() {
        add_instance(
            alloc,
            definitions,
            library,
            instances,
            number,
            &mut bits,
            &mut rows,
        )?;
    }
    Ok(rows)
}

// No rows but the outer one of the top, outside of which is nothing.
fn first_rows(alloc: Global, library: &Library, instances: &[Placed]) -> Result<Rows, NoMemory>
    ensures none { IfOk result (λ rows. length rows.nets.items ≤ 2 ^ 22) }
    ensures rows { IfOk result (λ rows. (source : Source) (top : Module) (corner : ghost_corner.Corner) → IsGiven source top corner library.now instances.now → AreUpTo source top rows 0) }
{
    Ok(Rows {
        nets: Vec::new(alloc),
        starts: Vec::new(alloc),
        inner: Vec::new(alloc),
        outer_starts: vec![in alloc; 0; instances.len()]?,
        outer: vec![in alloc; None; top_bits(library, instances)]?,
        member_starts: Vec::new(alloc),
        firsts: Vec::new(alloc),
        end_starts: Vec::new(alloc),
        ends: Vec::new(alloc),
    })
}

// How many bits the top has.
fn top_bits(library: &Library, instances: &[Placed]) -> usize
    ensures { (source : Source) (top : Module) (corner : ghost_corner.Corner) → IsGiven source top corner library.now instances.now → result ≡ length (all_bits (variables top)) }
{
    let Some(top) = instances.first() else {
        return 0;
    };
    let Some(prepared) = find_module(library, top.definition) else {
        return 0;
    };
    prepared.table.bits()
}
