// What holds of adjusted circuits.
ghost use Rattle.late_limits.specs.Laws.{AdjustedIsOne};

/// What a circuit is adjusted to is one: the delays of its Lates, and the limits that are taken as 0, in their order.
pub fn adjusted_is_one()
    ensures { AdjustedIsOne }
{}
