// What drives the inputs of a run.
ghost use Rattle.std.specs.Prelude.{◌≡◌, map, option_map, codes};
ghost use Rattle.run_words.specs.ArgumentsSeen.{argument_seen};
ghost use Rattle.run_words.specs.Words.{input_of, value_of};
ghost use Rattle.run_words.specs.WordsSeen.{input_seen};

use crate::arguments::Argument;
use crate::rules::value_of;

/// What drives the inputs, by the name of its file.
#[derive(Clone, Copy, Debug, PartialEq)]
pub enum Input<'a> {
    Stimulus(&'a str),
    /// A value change dump, and the path of the scope that is taken of it; the default is the top's name.
    Wave {
        file: &'a str,
        scope: Option<&'a str>,
    },
}

/// What drives the inputs by the arguments: exactly one of the two files is given, and a scope with a wave alone.
pub fn input_of<'a>(arguments: &[Argument<'a>]) -> Option<Input<'a>>
    ensures { option_map (λ i. input_seen i) result ≡ input_of (value_of (codes "stim") (map argument_seen arguments.now)) (value_of (codes "wave") (map argument_seen arguments.now)) (value_of (codes "scope") (map argument_seen arguments.now)) }
{
    let scope = value_of(arguments, "scope");
    match (value_of(arguments, "stim"), value_of(arguments, "wave")) {
        (Some(file), None) => {
            if scope.is_none() {
                Some(Input::Stimulus(file))
            } else {
                None
            }
        }
        (None, Some(file)) => Some(Input::Wave { file, scope }),
        _ => None,
    }
}
