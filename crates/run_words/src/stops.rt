// Where a run is stopped.
ghost use Rattle.std.specs.Prelude.{◌≡◌, map, option_map, codes};
ghost use Rattle.run_words.specs.ArgumentsSeen.{argument_seen};
ghost use Rattle.run_words.specs.Words.{stop_of, value_of};
ghost use Rattle.run_words.specs.WordsSeen.{stop_seen};

use crate::arguments::Argument;
use crate::numbers::time_within;
use crate::rules::value_of;

// Of a time.
const MOST_TIME_DIGITS: usize = 18;

/// A run is stopped after a time, in ticks, and saved in a file.
#[derive(Clone, Copy, Debug, PartialEq)]
pub struct Stop<'a> {
    pub time: u64,
    pub save: &'a str,
}

/// Where a run is stopped by the arguments: the time and the file are both given, or neither is.
pub fn stop_of<'a>(arguments: &[Argument<'a>]) -> Option<Option<Stop<'a>>>
    ensures { option_map (λ o. option_map (λ s. stop_seen s) o) result ≡ stop_of (value_of (codes "stop") (map argument_seen arguments.now)) (value_of (codes "save") (map argument_seen arguments.now)) }
{
    match (value_of(arguments, "stop"), value_of(arguments, "save")) {
        (None, None) => Some(None),
        (Some(text), Some(save)) => {
            let time = time_within(MOST_TIME_DIGITS, text)?;
            Some(Some(Stop { time, save }))
        }
        _ => None,
    }
}
