// The values of inputs before and after a step, as pairs of digits.
ghost use Rattle.std.specs.Prelude.{◌≡◌, ◌+◌, ◌*◌, ◌==◌, if◌then◌else◌};
ghost use Rattle.udp_table.specs.Places.{digit as number_of};
ghost use Rattle.udp_table.specs.Compiled.{ArePairs, inputs_of};

use crate::digits::{digit, digit_value};
use sg_logic::Value;

// The pair of an input with this value after the step.
fn pair(j: usize, input: usize, old: Value, after: Value) -> usize
    ensures { result ≡ 3 * number_of (if j == input then old else after) + number_of after }
{
    let before = if j == input { old } else { after };
    3 * digit(before) + digit(after)
}

/// The pairs of ten inputs: all but one have the value of their digit in the code before and after.
pub(crate) fn pairs_of(code: usize, input: usize, old: Value) -> [usize; 10]
    ensures { ArePairs result input old (inputs_of code) }
{
    let mut pairs = [0; 10];
    let mut rest = code;
    for j in 0..10 {
        pairs[j] = pair(j, input, old, digit_value(rest % 3));
        rest /= 3;
    }
    pairs
}
