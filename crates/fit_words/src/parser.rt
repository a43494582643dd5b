// The words as the library of command lines splits them.
use crate::arguments::Argument;
use crate::rules::OPTIONS;
use clap::error::ErrorKind;
use clap::{Arg, ArgAction, ArgMatches};
use sg_text::NoMemory;
use std::alloc::Global;

const NETLISTS: &str = "netlists";

const DROP_MISSING: &str = "drop-missing";

const STRICT: &str = "strict";

// These options and the netlists, and no option of the library's own, as `--help`. The words begin with no name of a program.
fn parser<'a>(alloc: Global) -> Result<clap::Command<'a>, NoMemory> {
    let mut parser = clap::Command::new(alloc, "fit")
        .no_binary_name(true)
        .disable_help_flag(true)
        .disable_version_flag(true);
    for name in &OPTIONS {
        let name = *name;
        let option = Arg::new(alloc, name).long(name).action(ArgAction::Append);
        parser = parser.arg(option)?;
    }
    for name in [DROP_MISSING, STRICT] {
        let flag = Arg::new(alloc, name).long(name).action(ArgAction::SetTrue);
        parser = parser.arg(flag)?;
    }
    let netlists = Arg::new(alloc, NETLISTS)
        .num_args(1..)
        .action(ArgAction::Append);
    Ok(parser.arg(netlists)?)
}

// What the library finds in the words, or None where it refuses them.
fn matches_of<'a>(alloc: Global, words: &'a [String]) -> Result<Option<ArgMatches<'a>>, NoMemory> {
    match parser(alloc)?.try_get_matches_from(words) {
        Ok(matches) => Ok(Some(matches)),
        Err(error) => {
            if error.kind() == ErrorKind::OutOfMemory {
                Err(NoMemory)
            } else {
                Ok(None)
            }
        }
    }
}

fn add_settings<'a>(
    arguments: &mut Vec<Argument<'a>>,
    matches: &ArgMatches<'a>,
    name: &'a str,
) -> Result<(), NoMemory> {
    if let Some(values) = matches.get_strs(name) {
        for value in values {
            arguments.push(Argument::Setting { name, value })?;
        }
    }
    Ok(())
}

fn add_options<'a>(
    arguments: &mut Vec<Argument<'a>>,
    matches: &ArgMatches<'a>,
) -> Result<(), NoMemory> {
    for name in &OPTIONS {
        add_settings(arguments, matches, *name)?;
    }
    if matches.get_flag(DROP_MISSING) {
        arguments.push(Argument::Flag("--drop-missing"))?;
    }
    if matches.get_flag(STRICT) {
        arguments.push(Argument::Flag("--strict"))?;
    }
    Ok(())
}

fn add_netlists<'a>(
    arguments: &mut Vec<Argument<'a>>,
    matches: &ArgMatches<'a>,
) -> Result<(), NoMemory> {
    if let Some(names) = matches.get_strs(NETLISTS) {
        for name in names {
            arguments.push(Argument::Netlist(name))?;
        }
    }
    Ok(())
}

/// The arguments that the library finds in the words, or None where it refuses them: the options first, and then the
/// netlists. Takes memory.
pub fn parse_arguments<'a>(
    alloc: Global,
    words: &'a [String],
) -> Result<Option<Vec<Argument<'a>>>, NoMemory> {
    let Some(matches) = matches_of(alloc, words)? else {
        return Ok(None);
    };
    let mut arguments = Vec::new(alloc);
    add_options(&mut arguments, &matches)?;
    add_netlists(&mut arguments, &matches)?;
    Ok(Some(arguments))
}
