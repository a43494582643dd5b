// The words of the command line.
ghost use Rattle.std.specs.Prelude.{◌≡◌, ◌↔◌, IsTrue, map, option_map, option_and_then, IfOk, codes, string_bytes};
ghost use Rattle.run_words.specs.Arguments.{is_text, arguments_of};
ghost use Rattle.run_words.specs.ArgumentsSeen.{argument_seen};
ghost use Rattle.run_words.specs.Words.{value_of, command_with, asked_with, asked_from, asked_after, asked_by, asked_of, case_of, default_rounds, most_digits, most_rounds, number_up_to, read_or, rest_with, run_asked, run_with};
ghost use Rattle.run_words.specs.WordsSeen.{asked_seen, command_seen, stop_seen};

use crate::arguments::{Argument, read_arguments};
use crate::designs::{Design, Writing, design_with, writing_with};
use crate::inputs::{Input, input_of};
use crate::numbers::number_up_to;
use crate::parser::parse_arguments;
use crate::rules::{are_sound, netlists_of, value_of};
use crate::stops::{Stop, stop_of};
use crate::subcommands::{Subcommand, options_of, subcommand_of};
use sg_text::NoMemory;
use std::alloc::Global;

// Of a number that an option has.
const MOST_DIGITS: usize = 7;

const DEFAULT_ROUNDS: u32 = 10_000;

const MOST_ROUNDS: u32 = 1_000_000;

const DEFAULT_WHEEL: u32 = 4096;

const MOST_WHEEL: u32 = 1 << 20;

const MOST_STAGES: u32 = 100_000;

const MOST_STAGE_DIGITS: usize = 6;

/// A run. The files are named as the words name them.
#[derive(Debug, Drop, PartialEq)]
pub struct Command<'a> {
    pub design: Design<'a>,
    pub input: Input<'a>,
    /// The file for the value change dump.
    pub vcd: &'a str,
    /// The most rounds that one time may take, from 1 to 1000000.
    pub rounds: u32,
    /// How many slots the wheel has, from 1 to 1048576.
    pub wheel: u32,
}

/// What the words ask for.
#[derive(Debug, Drop, PartialEq)]
pub enum Asked<'a> {
    Run(Command<'a>),
    /// A run that is stopped and saved.
    Stop(Command<'a>, Stop<'a>),
    /// The rest of a run, from the moment that is saved in a file on.
    Rest(Command<'a>, &'a str),
    /// The delays of a design, as an SDF file.
    Writing(Writing<'a>),
    /// The settle bounds of a design.
    Bounds(Design<'a>),
    /// The run of the generated case of so many stages, from 1 to 100000.
    Case(u32),
}

fn number_or(arguments: &[Argument<'_>], name: &str, most: u32, default: u32) -> Option<u32>
    ensures { result ≡ read_or default (number_up_to most_digits most) (value_of name.now (map argument_seen arguments.now)) }
{
    match value_of(arguments, name) {
        Some(text) => number_up_to(MOST_DIGITS, most, text),
        None => Some(default),
    }
}

/// The bound on the rounds of one time.
pub fn rounds_of(arguments: &[Argument<'_>]) -> Option<u32>
    ensures { result ≡ read_or default_rounds (number_up_to most_digits most_rounds) (value_of (codes "rounds") (map argument_seen arguments.now)) }
{
    number_or(arguments, "rounds", MOST_ROUNDS, DEFAULT_ROUNDS)
}

// The run of sound arguments and their netlists.
fn command_with<'a>(netlists: Vec<&'a str>, arguments: &[Argument<'a>]) -> Option<Command<'a>>
    ensures { option_map (λ c. command_seen c) result ≡ command_with (map (λ n. n.now) netlists.entry.items) (map argument_seen arguments.now) }
{
    let design = design_with(netlists, arguments)?;
    let input = input_of(arguments)?;
    let vcd = value_of(arguments, "vcd")?;
    let rounds = rounds_of(arguments)?;
    let wheel = number_or(arguments, "wheel", MOST_WHEEL, DEFAULT_WHEEL)?;
    Some(Command {
        design,
        input,
        vcd,
        rounds,
        wheel,
    })
}

// The file of the save is another than that of the dump.
fn run_asked<'a>(command: Command<'a>, stop: Option<Stop<'a>>) -> Option<Asked<'a>>
    ensures { option_map (λ a. asked_seen a) result ≡ run_asked (command_seen command.entry) (option_map (λ s. stop_seen s) stop.entry) }
{
    match stop {
        None => Some(Asked::Run(command)),
        Some(stop) if stop.save == command.vcd => None,
        Some(stop) => Some(Asked::Stop(command, stop)),
    }
}

fn run_with<'a>(netlists: Vec<&'a str>, arguments: &[Argument<'a>]) -> Option<Asked<'a>>
    ensures { option_map (λ a. asked_seen a) result ≡ run_with (map (λ n. n.now) netlists.entry.items) (map argument_seen arguments.now) }
{
    let command = command_with(netlists, arguments)?;
    let stop = stop_of(arguments)?;
    run_asked(command, stop)
}

fn rest_with<'a>(netlists: Vec<&'a str>, arguments: &[Argument<'a>]) -> Option<Asked<'a>>
    ensures { option_map (λ a. asked_seen a) result ≡ rest_with (map (λ n. n.now) netlists.entry.items) (map argument_seen arguments.now) }
{
    let command = command_with(netlists, arguments)?;
    let state = value_of(arguments, "state")?;
    Some(Asked::Rest(command, state))
}

// What a subcommand asks for by sound arguments and their netlists.
fn asked_with<'a>(
    subcommand: Subcommand,
    netlists: Vec<&'a str>,
    arguments: &[Argument<'a>],
) -> Option<Asked<'a>>
    ensures { option_map (λ a. asked_seen a) result ≡ asked_with subcommand (map (λ n. n.now) netlists.entry.items) (map argument_seen arguments.now) }
{
    match subcommand {
        Subcommand::Run => run_with(netlists, arguments),
        Subcommand::Resume => rest_with(netlists, arguments),
        Subcommand::Annotate => Some(Asked::Writing(writing_with(netlists, arguments)?)),
        Subcommand::Settle => Some(Asked::Bounds(design_with(netlists, arguments)?)),
    }
}

fn asked_from<'a>(
    alloc: Global,
    subcommand: Subcommand,
    arguments: &[Argument<'a>],
) -> Result<Option<Asked<'a>>, NoMemory>
    ensures { IfOk result (λ a. option_map (λ x. asked_seen x) a ≡ asked_from subcommand (map argument_seen arguments.now)) }
{
    let netlists = netlists_of(alloc, arguments)?;
    if are_sound(options_of(subcommand), arguments, &netlists) {
        Ok(asked_with(subcommand, netlists, arguments))
    } else {
        Ok(None)
    }
}

// What a subcommand asks for by the words behind its name.
fn asked_after<'a>(
    alloc: Global,
    subcommand: Subcommand,
    words: &'a [String],
) -> Result<Option<Asked<'a>>, NoMemory>
    ensures { IfOk result (λ a. option_map (λ x. asked_seen x) a ≡ asked_after (map string_bytes words.now) (Some subcommand)) }
{
    match read_arguments(alloc, words)? {
        Some(arguments) => asked_from(alloc, subcommand, &arguments),
        None => Ok(None),
    }
}

// The same as the library splits the words, of which the first is a name for it.
fn asked_by_parser<'a>(
    alloc: Global,
    subcommand: Subcommand,
    words: &'a [String],
) -> Result<Option<Asked<'a>>, NoMemory> {
    match parse_arguments(alloc, options_of(subcommand), words)? {
        Some(arguments) => asked_from(alloc, subcommand, &arguments),
        None => Ok(None),
    }
}

// Whether two ask for the same.
fn is_same(one: &Asked<'_>, other: &Asked<'_>) -> bool
    ensures { IsTrue result ↔ (asked_seen one.now ≡ asked_seen other.now) }
{
    one == other
}

// The rules decide, since the library also takes `-` for the name of a file: what it finds is taken where it is theirs.
fn agreed<'a>(parsed: Option<Asked<'a>>, ruled: Asked<'a>) -> Asked<'a>
    ensures { asked_seen result ≡ asked_seen ruled.entry }
{
    let Some(parsed) = parsed else {
        return ruled;
    };
    if is_same(&parsed, &ruled) {
        parsed
    } else {
        ruled
    }
}

// What the name of a subcommand and the words behind it ask for, or None where they are refused.
fn read_subcommand<'a>(alloc: Global, words: &'a [String]) -> Result<Option<Asked<'a>>, NoMemory>
    ensures { IfOk result (λ a. option_map (λ x. asked_seen x) a ≡ asked_by (map (λ w. string_bytes w) words.now)) }
{
    let [first, rest @ ..] = words else {
        return Ok(None);
    };
    let Some(subcommand) = subcommand_of(first.as_str()) else {
        return Ok(None);
    };
    let Some(ruled) = asked_after(alloc, subcommand, rest)? else {
        return Ok(None);
    };
    let parsed = asked_by_parser(alloc, subcommand, words)?;
    Ok(Some(agreed(parsed, ruled)))
}

fn is_gen(word: &str) -> bool
    ensures { result ≡ is_text (codes "gen") word.now }
{
    word == "gen"
}

// The stages of the words `gen` and a number.
fn case_of(words: &[String]) -> Option<u32>
    ensures { result ≡ case_of (map (λ w. string_bytes w) words.now) }
{
    let [first, stages] = words else {
        return None;
    };
    if !is_gen(first.as_str()) {
        return None;
    }
    number_up_to(MOST_STAGE_DIGITS, MOST_STAGES, stages.as_str())
}

/// What the words of the command line ask for, or None where they are refused. The program's own name isn't among the
/// words. Takes memory.
pub fn read_words<'a>(alloc: Global, words: &'a [String]) -> Result<Option<Asked<'a>>, NoMemory>
    ensures asked { IfOk result (λ c. option_map (λ x. asked_seen x) c ≡ asked_of (map (λ w. string_bytes w) words.now)) }
{
    if let Some(asked) = read_subcommand(alloc, words)? {
        return Ok(Some(asked));
    }
    let Some(stages) = case_of(words) else {
        return Ok(None);
    };
    Ok(Some(Asked::Case(stages)))
}
