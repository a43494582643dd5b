// The words as the library of command lines splits them.
use crate::arguments::Argument;
use clap::error::ErrorKind;
use clap::{Arg, ArgAction, ArgMatches};
use sg_text::NoMemory;
use std::alloc::Global;

const NETLISTS: &str = "netlists";

// These options and the netlists, and no option of the library's own, as `--help`.
fn parser<'a>(alloc: Global, options: &[&'a str]) -> Result<clap::Command<'a>, NoMemory> {
    let mut parser = clap::Command::new(alloc, "signoff")
        .disable_help_flag(true)
        .disable_version_flag(true);
    for name in options {
        let name = *name;
        let option = Arg::new(alloc, name).long(name).action(ArgAction::Set);
        parser = parser.arg(option)?;
    }
    let netlists = Arg::new(alloc, NETLISTS)
        .num_args(1..)
        .action(ArgAction::Append);
    Ok(parser.arg(netlists)?)
}

// What the library finds in the words, of which the first is a name for it, or None where it refuses them.
fn matches_of<'a>(
    alloc: Global,
    options: &[&'a str],
    words: &'a [String],
) -> Result<Option<ArgMatches<'a>>, NoMemory> {
    match parser(alloc, options)?.try_get_matches_from(words) {
        Ok(matches) => Ok(Some(matches)),
        Err(error) => {
            if error.kind() == ErrorKind::OutOfMemory {
                Err(NoMemory)
            } else {
                Ok(None)
            }
        }
    }
}

fn add_options<'a>(
    arguments: &mut Vec<Argument<'a>>,
    matches: &ArgMatches<'a>,
    options: &[&'a str],
) -> Result<(), NoMemory> {
    for name in options {
        let name = *name;
        if let Some(value) = matches.get_str(name) {
            arguments.push(Argument::Setting { name, value })?;
        }
    }
    Ok(())
}

fn add_netlists<'a>(
    arguments: &mut Vec<Argument<'a>>,
    matches: &ArgMatches<'a>,
) -> Result<(), NoMemory> {
    if let Some(names) = matches.get_strs(NETLISTS) {
        for name in names {
            arguments.push(Argument::Netlist(name))?;
        }
    }
    Ok(())
}

/// The arguments that the library finds in the name of a subcommand and the words behind it, or None where it refuses them: the
/// options first, which are of these, and then the netlists. Takes memory.
pub fn parse_arguments<'a>(
    alloc: Global,
    options: &[&'a str],
    words: &'a [String],
) -> Result<Option<Vec<Argument<'a>>>, NoMemory> {
    let Some(matches) = matches_of(alloc, options, words)? else {
        return Ok(None);
    };
    let mut arguments = Vec::new(alloc);
    add_options(&mut arguments, &matches, options)?;
    add_netlists(&mut arguments, &matches)?;
    Ok(Some(arguments))
}
