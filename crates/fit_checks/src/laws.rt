// What holds of conditions of the time stamp and the time check.
ghost use Rattle.fit_checks.specs.Halves.{ConditionsAreKept};

/// A check with both conditions has the violations of the checks that are written for it.
pub fn conditions_are_kept()
    ensures { ConditionsAreKept }
{}
