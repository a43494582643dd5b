// The nets of the regs of an instance.
ghost use Rattle.std.specs.Prelude.{◌≡◌, ◌<◌, ◌++◌, List, OnOk, length, flat_map};
ghost use Rattle.vl_tree.specs.Tree.{Source};
ghost use Rattle.elab_model.specs.Drivers.{reg_drives};
ghost use Rattle.elab_model.specs.Hierarchy.{Instance};
ghost use Rattle.elab_model.specs.Names.{variables};
ghost use Rattle.elab_model.specs.Nets.{OwnNet};
ghost use Rattle.elab_variables.specs.Seen.{variable_at};
ghost use Rattle.elab_scopes.specs.Driven.{drive_numbers};
ghost use Rattle.elab_scopes.specs.Here.{IsHere};

use crate::bits::bits_of;
use crate::here::Here;
use sg_circuit::NetId;
use sg_text::NoMemory;

/// Adds the nets of the regs of an instance.
pub fn add_regs(here: &Here, nets: &mut Vec<NetId>) -> Result<(), NoMemory>
    ensures { OnOk result ((all : List OwnNet) (source : Source) (s : Instance) → IsHere all source s here.now
        → nets.new.items ≡ nets.old.items ++ drive_numbers all (flat_map (reg_drives source s) (variables s.step.definition))) }
{
    for variable in 0..here.prepared.table.len() {
        add_reg(here, variable, nets)?;
    }
    Ok(())
}

// The nets of a variable, if it is a reg.
fn add_reg(here: &Here, variable: usize, nets: &mut Vec<NetId>) -> Result<(), NoMemory>
    requires { variable < length here.now.prepared.now.table }
    ensures { OnOk result ((all : List OwnNet) (source : Source) (s : Instance) → IsHere all source s here.now
        → nets.new.items ≡ nets.old.items ++ drive_numbers all (reg_drives source s (variable_at here.now.prepared.now.table variable))) }
{
    if !here.prepared.table.row(variable).reg {
        return Ok(());
    }
    nets.extend_from_slice(bits_of(here, variable))?;
    Ok(())
}
