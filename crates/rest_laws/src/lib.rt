//! The law that a run that goes on from a saved moment is the rest of the whole run.
#![tactic(auto)]

ghost use Rattle.rest_laws.specs.Rests.{RestIsTheRest};

/// What a run has come to after a time, and nothing else of it, decides the rest: stopped there and gone on with, it finds what the whole run finds.
pub fn the_rest_is_that_of_the_whole()
    ensures { RestIsTheRest }
{}
