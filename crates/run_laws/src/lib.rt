//! Laws of runs: what a stimulus does to a run it does through the values of the inputs alone.
#![tactic(auto)]

ghost use Rattle.run_laws.specs.Inputs.{InputsMakeTheRun};

/// A stimulus that tells at each time what a run makes of the inputs makes the run again.
pub fn inputs_make_the_run()
    ensures { InputsMakeTheRun }
{}
