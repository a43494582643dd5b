// How the numbers of a module become ticks.
ghost use Rattle.std.specs.Prelude.{◌≤ℤ◌};

use sg_delay::Corner;
use sg_time::{Scale, Unit};

/// How numbers of a module become ticks (IEEE 1364-2005, 7.14.1, 19.8): a corner's part, as so many units of the module's scale, is rounded to its precision, of which
/// a tick is no greater part.
#[derive(Clone, Copy, Debug, PartialEq)]
pub struct Measure {
    pub corner: Corner,
    pub tick: Unit,
    pub scale: Scale,
    pub ghost fits: { tick.power ≤ℤ scale.precision.power },
}
