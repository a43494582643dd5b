// Laws of dumps.
ghost use Rattle.wave_out.specs.Laws.{FirstTimesAreWritten, FirstTimesOfStopAreWritten, NestedTexts, NextTimesAreWritten, RestMakesTheWhole, SpentRestIsWritten, SpentRunIsWritten, SpentStopIsWritten, StoppedRunIsWritten, WholeRestIsWritten, WholeRunIsWritten};

/// What is written after the calls of a run is the text of its value change dump.
pub fn calls_of_a_run_are_its_dump()
    ensures whole { WholeRunIsWritten }
    ensures spent { SpentRunIsWritten }
    ensures begun { FirstTimesAreWritten }
    ensures stopped { StoppedRunIsWritten }
    ensures stop_spent { SpentStopIsWritten }
    ensures stop_begun { FirstTimesOfStopAreWritten }
{}

/// What is written after the calls of a run that goes on is the rest of its value change dump.
pub fn calls_of_a_rest_are_its_dump()
    ensures whole { WholeRestIsWritten }
    ensures spent { SpentRestIsWritten }
    ensures begun { NextTimesAreWritten }
{}

/// What is written up to a stop, and what is written from there on, is what is written of the whole run.
pub fn the_rest_makes_the_whole()
    ensures { RestMakesTheWhole }
{}

/// The texts of two scopes with a vector and a reg.
pub fn nested_texts()
    ensures { NestedTexts }
{}
