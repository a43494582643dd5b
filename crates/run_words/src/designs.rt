// Netlists and what is annotated to them.
ghost use Rattle.std.specs.Prelude.{◌≡◌, map, option_map, codes};
ghost use Rattle.run_words.specs.ArgumentsSeen.{argument_seen};
ghost use Rattle.run_words.specs.Words.{corner_of, default_corner, design_with, read_or, value_of, writing_with};
ghost use Rattle.run_words.specs.WordsSeen.{design_seen, writing_seen};

use crate::arguments::Argument;
use crate::rules::{corner_of, value_of};
use sg_delay::Corner;

const DEFAULT_CORNER: Corner = Corner::Typ;

/// A netlist and what is annotated to it. The files are named as the words name them.
#[derive(Debug, Drop, PartialEq)]
pub struct Design<'a> {
    /// One or more, in their order.
    pub netlists: Vec<&'a str>,
    /// The file of the delays and limits that are annotated.
    pub sdf: Option<&'a str>,
    /// The name of the top module.
    pub top: Option<&'a str>,
    pub corner: Corner,
}

/// A design whose delays are written.
#[derive(Debug, Drop, PartialEq)]
pub struct Writing<'a> {
    pub design: Design<'a>,
    /// The file for them.
    pub out: &'a str,
}

fn corner_or_default(arguments: &[Argument<'_>]) -> Option<Corner>
    ensures { result ≡ read_or default_corner corner_of (value_of (codes "corner") (map argument_seen arguments.now)) }
{
    match value_of(arguments, "corner") {
        Some(text) => corner_of(text),
        None => Some(DEFAULT_CORNER),
    }
}

/// The design of sound arguments and their netlists.
pub fn design_with<'a>(netlists: Vec<&'a str>, arguments: &[Argument<'a>]) -> Option<Design<'a>>
    ensures { option_map (λ d. design_seen d) result ≡ design_with (map (λ n. n.now) netlists.entry.items) (map argument_seen arguments.now) }
{
    let corner = corner_or_default(arguments)?;
    Some(Design {
        netlists,
        sdf: value_of(arguments, "sdf"),
        top: value_of(arguments, "top"),
        corner,
    })
}

/// A design whose delays are written, by sound arguments and their netlists.
pub fn writing_with<'a>(netlists: Vec<&'a str>, arguments: &[Argument<'a>]) -> Option<Writing<'a>>
    ensures { option_map (λ w. writing_seen w) result ≡ writing_with (map (λ n. n.now) netlists.entry.items) (map argument_seen arguments.now) }
{
    let design = design_with(netlists, arguments)?;
    let out = value_of(arguments, "out")?;
    Some(Writing { design, out })
}
