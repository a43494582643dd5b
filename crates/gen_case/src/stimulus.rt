// The stimulus: a pulse on the input, and time for it to pass all stages.
ghost use Rattle.std.specs.Prelude.{◌≡◌, IfOk};
ghost use Rattle.gen_case.specs.Case.{stimulus_of};

use crate::numbers::push_number;
use sg_text::NoMemory;
use std::alloc::Global;

const HEAD: &str = "unit 1ps
at 0 a=0
at 1000 a=1
at 2000 a=0
end ";

/// The stimulus of so many stages.
#[tactic(auto, unfolding(crate::specs::Case::stimulus_of))]
pub fn stimulus_of(alloc: Global, stages: u32) -> Result<Vec<u8>, NoMemory>
    ensures { IfOk result (λ text. text.items ≡ stimulus_of stages) }
{
    let mut text = Vec::from_slice(alloc, HEAD.as_bytes())?;
    push_number(&mut text, 3000 + 200 * stages as u64)?;
    text.push(b'\n')?;
    Ok(text)
}
