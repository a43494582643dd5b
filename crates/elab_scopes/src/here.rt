// What stands ready of an instance.
ghost use Rattle.std.specs.Prelude.{◌≡◌, List};
ghost use Rattle.sg_delay.specs.declared.corners.Corner as ghost_corner;
ghost use Rattle.vl_tree.specs.Tree.{Module, Source};
ghost use Rattle.elab_model.specs.Hierarchy.{Instance};
ghost use Rattle.elab_model.specs.Nets.{OwnNet};
ghost use Rattle.elab_nets.specs.Rows.{part_of};
ghost use Rattle.elab_scopes.specs.Here.{Stands, StandsHere};

use elab_hierarchy::Placed;
use elab_nets::{Library, Prepared, Rows, find_module};
use sg_circuit::NetId;

/// The module of an instance, and the net of each of its bits.
#[derive(Clone, Copy)]
pub struct Here<'l, 't, 'a> {
    pub prepared: &'l Prepared<'t, 'a>,
    pub row: &'l [NetId],
}

/// What stands ready of an instance: of one netlist something always does.
pub fn here_at<'l, 't, 'a>(
    library: &'l Library<'t, 'a>,
    rows: &'l Rows,
    number: usize,
    placed: &Placed,
) -> Option<Here<'l, 't, 'a>>
    ensures { (source : Source) (top : Module) (corner : ghost_corner.Corner) (ss : List Instance) (all : List OwnNet) (s : Instance)
        → Stands source top corner library.now rows.now ss all number placed.now s → StandsHere all source s result }
{
    let prepared = find_module(library, placed.definition)?;
    let start = *rows.starts.get(number)?;
    Some(Here {
        prepared,
        row: part(&rows.inner, start, prepared.table.bits()),
    })
}

/// So many nets of a row, from a place on, as far as it goes.
pub fn part(row: &[NetId], start: usize, count: usize) -> &[NetId]
    ensures { result.now ≡ part_of row.now start count }
{
    let rest = &row[start.min(row.len())..];
    &rest[..count.min(rest.len())]
}
