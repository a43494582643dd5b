// The names of a primitive's declarations, put one after another.
ghost use Rattle.std.specs.Prelude.{◌≡◌, ◌++◌, OnOk, IfOk, map, flat_map, option_map};
ghost use Rattle.vl_tree.specs.Seen.{view_name, view_initial, view_primitive, view_primitive_declaration};
ghost use Rattle.elab_model.specs.Primitives.{outputs_of, inputs_of, regs_of};
ghost use Rattle.elab_model.specs.PrimitiveFaults.{initial_names};
ghost use Rattle.elab_primitives.specs.Declarations.{IsDeclared};

use crate::declared::Declared;
use sg_text::NoMemory;
use std::alloc::Global;
use vl_tree::{Initial, Name, Primitive, PrimitiveDeclaration};

/// The names of a primitive's declarations. Takes memory.
pub fn declared_names<'a>(
    alloc: Global,
    primitive: &Primitive<'a>,
) -> Result<Declared<'a>, NoMemory>
    ensures { IfOk result (IsDeclared (view_primitive primitive.now)) }
{
    let mut names = Vec::new(alloc);
    add_outputs(&primitive.declarations, &mut names)?;
    let after_outputs = names.len();
    add_inputs(&primitive.declarations, &mut names)?;
    let after_inputs = names.len();
    add_regs(&primitive.declarations, &mut names)?;
    let after_regs = names.len();
    add_initial(&primitive.initial, &mut names)?;
    Ok(Declared {
        names,
        after_outputs,
        after_inputs,
        after_regs,
    })
}

fn add_outputs<'a>(
    declarations: &[PrimitiveDeclaration<'a>],
    names: &mut Vec<Name<'a>>,
) -> Result<(), NoMemory>
    ensures { OnOk result (map view_name names.new.items ≡ map view_name names.old.items ++ flat_map outputs_of (map view_primitive_declaration declarations.now)) }
{
    for declaration in declarations {
        add_output(declaration, names)?;
    }
    Ok(())
}

fn add_output<'a>(
    declaration: &PrimitiveDeclaration<'a>,
    names: &mut Vec<Name<'a>>,
) -> Result<(), NoMemory>
    ensures { OnOk result (map view_name names.new.items ≡ map view_name names.old.items ++ outputs_of (view_primitive_declaration declaration.now)) }
{
    match declaration {
        PrimitiveDeclaration::Output { name, .. } => names.push(*name)?,
        PrimitiveDeclaration::Register { .. } => {}
        PrimitiveDeclaration::Inputs { .. } => {}
    }
    Ok(())
}

fn add_inputs<'a>(
    declarations: &[PrimitiveDeclaration<'a>],
    names: &mut Vec<Name<'a>>,
) -> Result<(), NoMemory>
    ensures { OnOk result (map view_name names.new.items ≡ map view_name names.old.items ++ flat_map inputs_of (map view_primitive_declaration declarations.now)) }
{
    for declaration in declarations {
        add_input(declaration, names)?;
    }
    Ok(())
}

fn add_input<'a>(
    declaration: &PrimitiveDeclaration<'a>,
    names: &mut Vec<Name<'a>>,
) -> Result<(), NoMemory>
    ensures { OnOk result (map view_name names.new.items ≡ map view_name names.old.items ++ inputs_of (view_primitive_declaration declaration.now)) }
{
    match declaration {
        PrimitiveDeclaration::Output { .. } => {}
        PrimitiveDeclaration::Register { .. } => {}
        PrimitiveDeclaration::Inputs { names: inputs, .. } => names.extend_from_slice(inputs)?,
    }
    Ok(())
}

fn add_regs<'a>(
    declarations: &[PrimitiveDeclaration<'a>],
    names: &mut Vec<Name<'a>>,
) -> Result<(), NoMemory>
    ensures { OnOk result (map view_name names.new.items ≡ map view_name names.old.items ++ flat_map regs_of (map view_primitive_declaration declarations.now)) }
{
    for declaration in declarations {
        add_reg(declaration, names)?;
    }
    Ok(())
}

fn add_reg<'a>(
    declaration: &PrimitiveDeclaration<'a>,
    names: &mut Vec<Name<'a>>,
) -> Result<(), NoMemory>
    ensures { OnOk result (map view_name names.new.items ≡ map view_name names.old.items ++ regs_of (view_primitive_declaration declaration.now)) }
{
    match declaration {
        PrimitiveDeclaration::Output { register, name, .. } => {
            if *register {
                names.push(*name)?;
            }
        }
        PrimitiveDeclaration::Register { name, .. } => names.push(*name)?,
        PrimitiveDeclaration::Inputs { .. } => {}
    }
    Ok(())
}

fn add_initial<'a>(initial: &Option<Initial<'a>>, names: &mut Vec<Name<'a>>) -> Result<(), NoMemory>
    ensures { OnOk result (map view_name names.new.items ≡ map view_name names.old.items ++ initial_names (option_map view_initial initial.now)) }
{
    if let Some(initial) = initial {
        names.push(initial.name)?;
    }
    Ok(())
}
