// Values as digits.
ghost use Rattle.std.specs.Prelude.{◌≡◌, ◌≢◌, ◌<◌};
ghost use Rattle.sg_logic.specs.declared.values.Value.TheVariants.{Z};
ghost use Rattle.udp_table.specs.Compiled.{digit_value as value_of};
ghost use Rattle.udp_table.specs.Places.{digit as number_of};

use sg_logic::Value;

/// A value as a number.
pub(crate) fn digit(value: Value) -> usize
    ensures { result ≡ number_of value }
{
    match value {
        Value::Zero => 0,
        Value::One => 1,
        Value::X => 2,
        Value::Z => 3,
    }
}

/// The value of a digit.
pub(crate) fn digit_value(digit: usize) -> Value
    ensures { result ≡ value_of digit }
{
    match digit {
        0 => Value::Zero,
        1 => Value::One,
        2 => Value::X,
        _ => Value::Z,
    }
}
