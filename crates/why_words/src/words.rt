// The words of the command line.
ghost use Rattle.std.specs.Prelude.{◌≡◌, map, option_map, IfOk, string_bytes};
ghost use Rattle.run_words.specs.ArgumentsSeen.{argument_seen};
ghost use Rattle.why_words.specs.Words.{asked_from, asked_of, asked_with, options};
ghost use Rattle.why_words.specs.WordsSeen.{asked_seen};

use crate::questions::{Question, question_of};
use run_words::{
    Argument, Design, Input, are_sound, design_with, input_of, netlists_of, read_arguments,
    rounds_of,
};
use sg_text::NoMemory;
use std::alloc::Global;

// In the order of the definition.
const OPTIONS: [&str; 10] = [
    "stim",
    "wave",
    "scope",
    "sdf",
    "top",
    "corner",
    "rounds",
    "net",
    "at",
    "violation",
];

fn options() -> &'static [&'static str]
    ensures { map (λ n. n.now) result.now ≡ options }
{
    &OPTIONS
}

/// What the words ask for. The files are named as the words name them.
#[derive(Debug, Drop, PartialEq)]
pub struct Asked<'a> {
    pub design: Design<'a>,
    pub input: Input<'a>,
    /// The most rounds that one time may take, from 1 to 1000000.
    pub rounds: u32,
    pub question: Question<'a>,
}

// What is asked for by sound arguments and their netlists.
fn asked_with<'a>(netlists: Vec<&'a str>, arguments: &[Argument<'a>]) -> Option<Asked<'a>>
    ensures { option_map (λ a. asked_seen a) result ≡ asked_with (map (λ n. n.now) netlists.entry.items) (map argument_seen arguments.now) }
{
    let design = design_with(netlists, arguments)?;
    let input = input_of(arguments)?;
    let rounds = rounds_of(arguments)?;
    let question = question_of(arguments)?;
    Some(Asked {
        design,
        input,
        rounds,
        question,
    })
}

fn asked_from<'a>(alloc: Global, arguments: &[Argument<'a>]) -> Result<Option<Asked<'a>>, NoMemory>
    ensures { IfOk result (λ a. option_map (λ x. asked_seen x) a ≡ asked_from (map argument_seen arguments.now)) }
{
    let netlists = netlists_of(alloc, arguments)?;
    if are_sound(options(), arguments, &netlists) {
        Ok(asked_with(netlists, arguments))
    } else {
        Ok(None)
    }
}

/// What the words of the command line ask for, or None where they are refused. The program's own name isn't among the
/// words. Takes memory.
pub fn read_words<'a>(alloc: Global, words: &'a [String]) -> Result<Option<Asked<'a>>, NoMemory>
    ensures { IfOk result (λ a. option_map (λ x. asked_seen x) a ≡ asked_of (map string_bytes words.now)) }
{
    match read_arguments(alloc, words)? {
        Some(arguments) => asked_from(alloc, &arguments),
        None => Ok(None),
    }
}
