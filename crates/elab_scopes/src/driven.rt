// The nets that aren't driven by elements.
ghost use Rattle.std.specs.Prelude.{◌≡◌, ◌++◌, List, IfOk, OnOk, flat_map};
ghost use Rattle.sg_delay.specs.declared.corners.Corner as ghost_corner;
ghost use Rattle.vl_tree.specs.Tree.{Module, Source};
ghost use Rattle.elab_model.specs.Drivers.{stimulus_drives, check_drives, reg_drives};
ghost use Rattle.elab_model.specs.Hierarchy as def;
ghost use Rattle.elab_model.specs.Names.{variables};
ghost use Rattle.elab_model.specs.Nets.{OwnNet, nets};
ghost use Rattle.elab_hierarchy.specs.Placing.{ArePlaced};
ghost use Rattle.elab_nets.specs.Reached.{IsLibrary};
ghost use Rattle.elab_nets.specs.Rows.{HaveRows};
ghost use Rattle.elab_scopes.specs.Driven.{AreDriven, AreNumbers, drive_numbers};
ghost use Rattle.elab_scopes.specs.Here.{AreRead, Stands, StandsHere};

use crate::here::{Here, here_at};
use crate::inputs::inputs_of;
use crate::regs::add_regs;
use elab_hierarchy::{Definitions, Placed};
use elab_nets::{Library, Rows};
use sg_circuit::NetId;
use sg_text::{NoMemory, Place};
use std::alloc::Global;

/// Nets, and the places where their driver is declared.
#[derive(Debug, Drop)]
pub struct DrivenNets {
    pub nets: Vec<NetId>,
    pub places: Vec<Place>,
}

/// The nets of the top's inputs, which the stimulus drives, at the names that declare them. Takes memory in proportion to the inputs and to the top's module.
pub fn input_nets(
    alloc: Global,
    definitions: &Definitions,
    library: &Library,
    instances: &[Placed],
    rows: &Rows,
) -> Result<DrivenNets, NoMemory>
    ensures { IfOk result (λ made. (top : Module) (corner : ghost_corner.Corner) → ArePlaced definitions.now instances.now (def.instances definitions.now top)
        → IsLibrary definitions.now corner top library.now → HaveRows definitions.now top rows.now → AreDriven (nets definitions.now top) (stimulus_drives definitions.now top) made) }
{
    let Some(here) = top_at(library, instances, rows) else {
        return Ok(DrivenNets {
            nets: Vec::new(alloc),
            places: Vec::new(alloc),
        });
    };
    let made = inputs_of(alloc, &here)?;
    Ok(made)
}

// What stands ready of the top.
fn top_at<'l, 't, 'a>(
    library: &'l Library<'t, 'a>,
    instances: &[Placed],
    rows: &'l Rows,
) -> Option<Here<'l, 't, 'a>>
    ensures { (source : Source) (top : Module) (corner : ghost_corner.Corner) (ss : List def.Instance) (all : List OwnNet)
        → AreRead source top corner library.now rows.now ss all → ArePlaced source instances.now ss → StandsHere all source (def.top_instance top) result }
{
    let top = instances.first()?;
    here_at(library, rows, 0, top)
}

/// The nets of the regs of all instances, which the timing checks may toggle. Takes memory in proportion to the regs.
pub fn reg_nets(
    alloc: Global,
    definitions: &Definitions,
    library: &Library,
    instances: &[Placed],
    rows: &Rows,
) -> Result<Vec<NetId>, NoMemory>
    ensures { IfOk result (λ made. (top : Module) (corner : ghost_corner.Corner) → ArePlaced definitions.now instances.now (def.instances definitions.now top)
        → IsLibrary definitions.now corner top library.now → HaveRows definitions.now top rows.now → AreNumbers (nets definitions.now top) (check_drives definitions.now top) made.items) }
{
    let mut nets = Vec::new(alloc);
    for (number, placed) in instances.iter().enumerate() {
        add_regs_at(library, rows, number, placed, &mut nets)?;
    }
    Ok(nets)
}

// The nets of the regs of one instance more.
fn add_regs_at(
    library: &Library,
    rows: &Rows,
    number: usize,
    placed: &Placed,
    made: &mut Vec<NetId>,
) -> Result<(), NoMemory>
    ensures { OnOk result ((source : Source) (top : Module) (corner : ghost_corner.Corner) (ss : List def.Instance) (all : List OwnNet) (s : def.Instance)
        → Stands source top corner library.now rows.now ss all number placed.now s
        → made.new.items ≡ made.old.items ++ drive_numbers all (flat_map (reg_drives source s) (variables s.step.definition))) }
{
    let Some(here) = here_at(library, rows, number, placed) else {
        return Ok(());
    };
    add_regs(&here, made)?;
    Ok(())
}
