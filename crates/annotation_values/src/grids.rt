// How the values of a file become ticks in a scope.
ghost use Rattle.std.specs.Prelude.{◌≤ℤ◌};

use sg_delay::Corner;
use sg_time::Unit;

/// Which value of a triple is taken, and how it becomes ticks: it is in a file's unit, is rounded to the precision of the module that
/// it annotates, and is then said in ticks (IEEE 1497-2001, triples and the timescale).
#[derive(Clone, Copy)]
pub struct Grid {
    pub corner: Corner,
    pub unit: Unit,
    pub precision: Unit,
    pub tick: Unit,
    pub ghost fine: { tick.power ≤ℤ precision.power },
}
