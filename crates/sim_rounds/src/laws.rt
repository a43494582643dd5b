// The laws of a circuit's machine.
ghost use Rattle.sim_rounds.specs.MomentLaws.{MomentsFit};
ghost use Rattle.sim_rounds.specs.CircuitLaws.{CircuitIsLawful};

/// A circuit's elements depend on their inputs alone, place no value before now, and do nothing where nothing happens.
pub fn circuit_is_lawful()
    ensures { CircuitIsLawful }
{}

/// The moments that runs of a circuit come to fit it, and have the state of the run.
pub fn moments_of_runs_fit()
    ensures { MomentsFit }
{}
