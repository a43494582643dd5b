// The twelve transitions of a net's value, each with a name of its own.
use crate::Value;

/// A change from the first value to the second, in the order of a list of twelve delays (IEEE 1364-2005, 14.3.1).
#[derive(Clone, Copy, Debug, PartialEq, Eq)]
pub enum Trans {
    T01,
    T10,
    T0z,
    Tz1,
    T1z,
    Tz0,
    T0x,
    Tx1,
    T1x,
    Tx0,
    Txz,
    Tzx,
}

// The table of the old and the new value, row by row, in the order 0, 1, x, z; `-` where nothing changes.
macro_rules! table {
    (-) => {
        None
    };
    ($change:ident) => {
        Some(Trans::$change)
    };
    ($from:expr, $to:expr; $($row:ident: $zero:tt $one:tt $x:tt $z:tt;)*) => {
        match $from {
            $(Value::$row => match $to {
                Value::Zero => table!($zero),
                Value::One => table!($one),
                Value::X => table!($x),
                Value::Z => table!($z),
            },)*
        }
    };
}

impl Trans {
    ghost use Rattle.std.specs.Prelude.{◌≡◌, ◌<◌, ◌↔◌, IsNone, Some, slice_get};
    ghost use Rattle.sg_logic.specs.Transitions.{transition, transitions};

    /// The change from one value to another; None where they are equal.
    pub fn of(from: Value, to: Value) -> Option<Trans>
        ensures value { result ≡ transition from to }
        ensures none { IsNone result ↔ (from ≡ to) }
    {
        table! { from, to;
            Zero: - T01 T0x T0z;
            One: T10 - T1x T1z;
            X: Tx0 Tx1 - Txz;
            Z: Tz0 Tz1 Tzx -;
        }
    }

    /// Its place in a list of twelve delays, from 0.
    pub fn place(self) -> usize
        ensures place { slice_get transitions result ≡ Some self }
        ensures within { result < 12 }
    {
        self as usize
    }
}
