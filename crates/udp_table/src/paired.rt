// Steps with the pairs of values that rows are asked about.
ghost use Rattle.std.specs.Prelude.{◌≢◌};
ghost use Rattle.sg_logic.specs.declared.values.Value.TheVariants.{Z};
ghost use Rattle.udp_table.specs.Compiled.{ArePairs, inputs_of};

use crate::pairs::pairs_of;
use sg_logic::Value;

/// One of ten inputs changes; of each input the pair of its values before and after.
#[derive(Drop)]
pub(crate) struct PairedStep {
    pub(crate) code: usize,
    pub(crate) input: usize,
    pub(crate) old: Value,
    pub(crate) state: Value,
    pub(crate) pairs: [usize; 10],
    ghost read: { old ≢ Z },
    ghost paired: { ArePairs pairs input old (inputs_of code) },
}

impl PairedStep {
    ghost use Rattle.std.specs.Prelude.{◌≡◌, ◌≢◌};
    ghost use Rattle.sg_logic.specs.declared.values.Value.TheVariants.{Z};
    ghost use Rattle.udp_table.specs.Compiled.{inputs_of};
    ghost use Rattle.udp_table.specs.PairedStep.{step_of_pairs};

    /// An input changes from an old value to that of its digit in the code.
    pub(crate) fn new(code: usize, input: usize, old: Value, state: Value) -> PairedStep
        requires { old ≢ Z }
        ensures { step_of_pairs result ≡ record { input = input; old = old; inputs = inputs_of code; state = state } }
    {
        PairedStep {
            code,
            input,
            old,
            state,
            pairs: pairs_of(code, input, old),
        }
    }
}
