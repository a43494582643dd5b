// Delays of gates, by the value to which the output goes.
ghost use Rattle.std.specs.Prelude.{ℕ, ◌≡◌, ◌≤◌, slice_index_or, take};
ghost use Rattle.sg_delay.specs.GateDelay.{delay_to, of_two, of_three};

use sg_logic::Value;

/// The first `count` of three delays, in ticks: to 1, to 0, to z. The others are 0.
#[derive(Clone, Copy, Debug, PartialEq, Eq)]
pub struct GateDelays {
    pub count: u8,
    pub at: [u64; 3],
    ghost rest_is_zero: { (i : ℕ) → count ≤ i → slice_index_or at i 0 ≡ 0 },
}

/// The delay, in ticks, of a gate whose output goes to a value: none is 0, and one stands for all. Of two the first is to 1,
/// the second to 0, the lesser to x and z; of three the third is to z and the least to x (IEEE 1364-2005, 7.14).
pub fn gate_delay(delays: &GateDelays, to: Value) -> u64
    requires { delays.now.count ≤ 3 }
    ensures { result ≡ delay_to (take delays.now.count delays.now.at) to }
{
    let [rise, fall, off] = delays.at;
    match delays.count {
        0 => 0,
        1 => rise,
        2 => delay_of_two(rise, fall, to),
        _ => delay_of_three(rise, fall, off, to),
    }
}

fn delay_of_two(rise: u64, fall: u64, to: Value) -> u64
    ensures { result ≡ of_two rise fall to }
{
    match to {
        Value::One => rise,
        Value::Zero => fall,
        Value::X | Value::Z => rise.min(fall),
    }
}

fn delay_of_three(rise: u64, fall: u64, off: u64, to: Value) -> u64
    ensures { result ≡ of_three rise fall off to }
{
    match to {
        Value::One => rise,
        Value::Zero => fall,
        Value::X => rise.min(fall).min(off),
        Value::Z => off,
    }
}
