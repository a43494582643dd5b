// The rules on the arguments as a whole.
ghost use Rattle.std.specs.Prelude.{◌≡◌, map, IfOk, option_map, is_some, count_by};
ghost use Rattle.std.specs.List.{list_any, list_all};
ghost use Rattle.run_words.specs.Arguments.{is_text};
ghost use Rattle.run_words.specs.ArgumentsSeen.{argument_seen};
ghost use Rattle.run_words.specs.Words.{value_under, value_of, netlists_of, is_known, is_single, are_sound, corner_of};

use crate::arguments::Argument;
use sg_delay::Corner;
use sg_text::NoMemory;
use std::alloc::Global;

fn value_under<'a>(argument: &Argument<'a>, name: &str) -> Option<&'a str>
    ensures { option_map (λ value. value.now) result ≡ value_under name.now (argument_seen argument.now) }
{
    match argument {
        Argument::Setting { name: own, value } => { if *own == name { Some(value) } else { None } }
        Argument::Netlist(_) => None,
    }
}

/// The first value of an option.
pub fn value_of<'a>(arguments: &[Argument<'a>], name: &str) -> Option<&'a str>
    ensures { option_map (λ value. value.now) result ≡ value_of name.now (map argument_seen arguments.now) }
{
    for argument in arguments {
        if let Some(value) = value_under(argument, name) {
            return Some(value);
        }
    }
    None
}

/// The names of the netlists. Takes memory.
pub fn netlists_of<'a>(alloc: Global, arguments: &[Argument<'a>]) -> Result<Vec<&'a str>, NoMemory>
    ensures { IfOk result (λ names. map (λ name. name.now) names.items ≡ netlists_of (map argument_seen arguments.now)) }
{
    let mut names = Vec::new(alloc);
    for argument in arguments {
        if let Argument::Netlist(name) = argument {
            names.push(*name)?;
        }
    }
    Ok(names)
}

fn is_among(names: &[&str], name: &str) -> bool
    ensures { result ≡ list_any (λ n. is_text name.now n.now) names.now }
{
    names.iter().any(|n| *n == name)
}

fn is_option(options: &[&str], name: &str) -> bool
    ensures { result ≡ list_any (is_text name.now) (map (λ n. n.now) options.now) }
{
    is_among(options, name)
}

fn is_known(options: &[&str], argument: &Argument<'_>) -> bool
    ensures { result ≡ is_known (map (λ n. n.now) options.now) (argument_seen argument.now) }
{
    match argument {
        Argument::Setting { name, value } => is_option(options, name) && 1 <= value.len(),
        Argument::Netlist(name) => 1 <= name.len(),
    }
}

fn is_under(argument: &Argument<'_>, name: &str) -> bool
    ensures { result ≡ is_some (value_under name.now (argument_seen argument.now)) }
{
    value_under(argument, name).is_some()
}

fn count_under(arguments: &[Argument<'_>], name: &str) -> usize
    ensures { result ≡ count_by (λ a. is_some (value_under name.now (argument_seen a))) arguments.now }
{
    arguments
        .iter()
        .filter(|argument| is_under(argument, name))
        .count()
}

#[tactic(auto, using(crate::proofs::RuleLaws::count_of_values))]
fn is_single(arguments: &[Argument<'_>], name: &str) -> bool
    ensures { result ≡ is_single (map argument_seen arguments.now) name.now }
{
    count_under(arguments, name) <= 1
}

fn are_single(arguments: &[Argument<'_>], names: &[&str]) -> bool
    ensures { result ≡ list_all (λ n. is_single (map argument_seen arguments.now) n.now) names.now }
{
    names.iter().all(|name| is_single(arguments, name))
}

fn are_known(options: &[&str], arguments: &[Argument<'_>]) -> bool
    ensures { result ≡ list_all (λ a. is_known (map (λ n. n.now) options.now) (argument_seen a)) arguments.now }
{
    arguments.iter().all(|argument| is_known(options, argument))
}

#[tactic(auto, using(crate::proofs::RuleLaws::all_seen_known))]
/// Whether the arguments keep the rules of these options, where these are the netlists among them.
pub fn are_sound(options: &[&str], arguments: &[Argument<'_>], netlists: &[&str]) -> bool
    requires { map (λ n. n.now) netlists.now ≡ netlists_of (map argument_seen arguments.now) }
    ensures { result ≡ are_sound (map (λ n. n.now) options.now) (map argument_seen arguments.now) }
{
    are_known(options, arguments) && are_single(arguments, options) && 1 <= netlists.len()
}

/// The corner of this name.
pub fn corner_of(text: &str) -> Option<Corner>
    ensures { result ≡ corner_of text.now }
{
    match text {
        "min" => Some(Corner::Min),
        "typ" => Some(Corner::Typ),
        "max" => Some(Corner::Max),
        _ => None,
    }
}
