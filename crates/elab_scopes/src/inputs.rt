// The nets of the inputs of an instance.
ghost use Rattle.std.specs.Prelude.{◌≡◌, ◌<◌, ◌++◌, List, IfOk, OnOk, length, map, flat_map};
ghost use Rattle.vl_tree.specs.Tree.{Source};
ghost use Rattle.elab_model.specs.Drivers.{input_drives};
ghost use Rattle.elab_model.specs.Hierarchy.{Instance};
ghost use Rattle.elab_model.specs.Homes as def;
ghost use Rattle.elab_model.specs.Names.{variables};
ghost use Rattle.elab_model.specs.Nets.{OwnNet};
ghost use Rattle.elab_variables.specs.Seen.{variable_at};
ghost use Rattle.elab_scopes.specs.Driven.{AreDriven, AddsDriven, declared_place, same_place};
ghost use Rattle.elab_scopes.specs.Here.{IsHere};

use crate::DrivenNets;
use crate::bits::bits_of;
use crate::here::Here;
use crate::places::port_places;
use sg_circuit::{NetId, Port};
use sg_text::{NoMemory, Place};
use std::alloc::Global;

/// The nets of the inputs of an instance, each at its first declaration as a port, or else where the module's name stands. Takes memory in proportion to the inputs and to the
/// module.
pub fn inputs_of(alloc: Global, here: &Here) -> Result<DrivenNets, NoMemory>
    ensures { IfOk result (λ made. (all : List OwnNet) (source : Source) (s : Instance) → IsHere all source s here.now → s.step.place ≡ s.step.definition.name.place
        → AreDriven all (flat_map (input_drives source s) (variables s.step.definition)) made) }
{
    let places = port_places(alloc, here.prepared)?;
    let mut made = DrivenNets {
        nets: Vec::new(alloc),
        places: Vec::new(alloc),
    };
    for (variable, place) in places.iter().enumerate() {
        add_input(here, variable, *place, &mut made)?;
    }
    Ok(made)
}

// The nets of a variable, if it is an input.
fn add_input(
    here: &Here,
    variable: usize,
    place: Place,
    made: &mut DrivenNets,
) -> Result<(), NoMemory>
    requires { variable < length here.now.prepared.now.table }
    ensures { OnOk result ((all : List OwnNet) (source : Source) (s : Instance) → IsHere all source s here.now → s.step.place ≡ s.step.definition.name.place
        → place ≡ declared_place s.step.definition (variable_at here.now.prepared.now.table variable)
        → AddsDriven all (input_drives source s (variable_at here.now.prepared.now.table variable)) made.old made.new) }
{
    if !is_input(here.prepared.table.row(variable).port) {
        return Ok(());
    }
    add_bits(bits_of(here, variable), place, made)?;
    Ok(())
}

fn is_input(port: Port) -> bool
    ensures { result ≡ def.is_input port }
{
    match port {
        Port::Input => true,
        Port::Output => false,
        Port::Inner => false,
    }
}

fn add_bits(bits: &[NetId], place: Place, made: &mut DrivenNets) -> Result<(), NoMemory>
    ensures nets { OnOk result (made.new.nets.items ≡ made.old.nets.items ++ bits.now) }
    ensures places { OnOk result (made.new.places.items ≡ made.old.places.items ++ map (same_place place) bits.now) }
{
    for bit in bits {
        made.nets.push(*bit)?;
        made.places.push(place)?;
    }
    Ok(())
}
