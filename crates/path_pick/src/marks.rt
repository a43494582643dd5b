// Flags of nets: from which of them a path goes whose own condition holds.
ghost use Rattle.std.specs.Prelude.{◌≡◌, ℕ, ◌<◌, ◌&&◌, All, IfOk, false, length, not, slice_index_or};
ghost use Rattle.sg_circuit.specs.PathFitting.{IsConditionWithin};
ghost use Rattle.path_pick.specs.Marks.{is_input, AreMarked, AreOff};

use crate::conditions::is_true;
use cond_expr::Nets;
use sg_circuit::Path;
use sg_text::NoMemory;
use std::alloc::Global;
use std::marker::Model;

/// A flag for each net, which `pick` sets and takes off again: between calls none is set.
#[derive(Drop)]
pub struct Marks {
    pub(crate) flags: Vec<bool>,
}

impl Model for Marks {
    ghost use Rattle.std.specs.Prelude.{ℕ, length};
    ghost use Rattle.std.specs.Coded.{coded_ℕ};
    ghost use Rattle.path_pick.specs.Marks.{AreOff};

    // so many nets there are
    ghost Value = { ℕ };

    ghost coded = { coded_ℕ };

    ghost view = { λ m. length m.flags.items };

    ghost invariant = { λ m. AreOff m.flags.items };
}

impl Marks {
    /// The flags of so many nets. Takes a byte for each.
    pub fn new(alloc: Global, nets: usize) -> Result<Marks, NoMemory>
        ensures { IfOk result (λ marks. marks ≡ nets) }
    {
        Ok(Marks {
            flags: vec![in alloc; false; nets]?,
        })
    }
}

/// The inputs of the paths whose own condition holds are marked, where none was.
pub(crate) fn mark_inputs<N: Nets>(paths: &[Path], nets: &N, flags: &mut [bool])
    requires conditions { All (λ p. IsConditionWithin (length (N.values nets.now)) p.condition) paths.now }
    requires inputs { All (λ p. p.input < length flags.old) paths.now }
    requires off { AreOff flags.old }
    ensures { AreMarked paths.now (N.values nets.now) flags.new }
{
    for path in paths {
        flags[path.input as usize] |= is_true(&path.condition, nets);
    }
}

/// The inputs of paths are marked no more.
pub(crate) fn clear_inputs(paths: &[Path], flags: &mut [bool])
    requires { All (λ p. p.input < length flags.old) paths.now }
    ensures { (net : ℕ) → slice_index_or flags.new net false ≡ (slice_index_or flags.old net false && not (is_input paths.now net)) }
{
    for path in paths {
        flags[path.input as usize] = false;
    }
}
