// The names that the declarations of a primitive give.
ghost use Rattle.std.specs.Prelude.{◌≤◌, length};

use vl_tree::Name;

/// The names of the outputs, of the inputs, of the regs and of the initial value, one after another, and where each of the first three ends.
#[derive(Drop)]
pub struct Declared<'a> {
    pub names: Vec<Name<'a>>,
    pub after_outputs: usize,
    pub after_inputs: usize,
    pub after_regs: usize,
    ghost inputs_second: { after_outputs ≤ after_inputs },
    ghost regs_third: { after_inputs ≤ after_regs },
    ghost initial_last: { after_regs ≤ length names.items },
}

impl<'a> Declared<'a> {
    ghost use Rattle.std.specs.Prelude.{◌≡◌, ◌++◌, map};
    ghost use Rattle.vl_tree.specs.Seen.{view_name};
    ghost use Rattle.vl_tree.specs.Tree.{Primitive};
    ghost use Rattle.elab_model.specs.Primitives as def;
    ghost use Rattle.elab_model.specs.PrimitiveFaults.{initial_names};
    ghost use Rattle.elab_primitives.specs.Declarations.{IsDeclared};

    pub fn outputs(&self) -> &[Name<'a>]
        ensures { (p : Primitive) → IsDeclared p self.now → map view_name result.now ≡ def.outputs p }
    {
        &self.names[..self.after_outputs]
    }

    pub fn inputs(&self) -> &[Name<'a>]
        ensures { (p : Primitive) → IsDeclared p self.now → map view_name result.now ≡ def.inputs p }
    {
        &self.names[self.after_outputs..self.after_inputs]
    }

    /// The outputs and the inputs.
    pub fn directions(&self) -> &[Name<'a>]
        ensures { (p : Primitive) → IsDeclared p self.now → map view_name result.now ≡ def.outputs p ++ def.inputs p }
    {
        &self.names[..self.after_inputs]
    }

    pub fn regs(&self) -> &[Name<'a>]
        ensures { (p : Primitive) → IsDeclared p self.now → map view_name result.now ≡ def.regs p }
    {
        &self.names[self.after_inputs..self.after_regs]
    }

    /// The regs and the name of the initial value.
    pub fn states(&self) -> &[Name<'a>]
        ensures { (p : Primitive) → IsDeclared p self.now → map view_name result.now ≡ def.regs p ++ initial_names p.initial }
    {
        &self.names[self.after_inputs..]
    }
}
