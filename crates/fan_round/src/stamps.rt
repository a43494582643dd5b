// The last changes of nets.
ghost use Rattle.std.specs.Prelude.{◌<◌, ◌^◌};

use sg_logic::Value;

/// A net's last change. Its time is below 2^60 ticks.
#[derive(Clone, Copy)]
pub struct Stamp {
    pub time: u64,
    pub before: Value,
    pub after: Value,
    pub ghost near: { time < 2 ^ 60 },
}
