// The nets after a round, as the rules of elements read them.
use cond_expr::Nets;
use fan_round::Stamp;
use path_pick::Stamps;
use sg_logic::Value;

/// The value and the last change of each net.
#[derive(Drop)]
pub struct NetsAfter<'a> {
    pub values: &'a [Value],
    pub stamps: &'a [Option<Stamp>],
}

impl Nets for NetsAfter<'_> {
    ghost values = { λ s. s.values.now };

    fn at(&self, net: u32) -> Value {
        self.values[net as usize]
    }
}

impl Stamps for NetsAfter<'_> {
    ghost use Rattle.std.specs.Prelude.{map};
    ghost use Rattle.fan_round.specs.Nets.{stamp_seen};

    ghost stamps = { λ s. map stamp_seen s.stamps.now };

    fn of(&self, net: u32) -> Option<Stamp> {
        self.stamps[net as usize]
    }
}
