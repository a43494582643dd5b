// Whether what is written is taken, and all that is below the top stays.
ghost use Rattle.std.specs.Prelude.{◌≡◌, ℕ, List, IfErr, OnOk, Ok, map, option_map};
ghost use Rattle.std.specs.List.{list_all};
ghost use Rattle.vl_lex.specs.Lexes.{Lexes};
ghost use Rattle.vl_lex.specs.Seen.{texts};
ghost use Rattle.vl_token.specs.Tokens.{Lexeme};
ghost use Rattle.fit_changes.specs.Lines.{line_seen};
ghost use Rattle.fit_parts.specs.Below.{holds};
ghost use Rattle.fit_parts.specs.Parts.{heading_seen, headings_of};
ghost use Rattle.fit_inside.specs.Inside.{IsAccepted};
ghost use Rattle.fit_netlist.specs.Fitted.{IsKept, Tells, is_outside};

use crate::faults::FitError;
use crate::reading::read_files;
use crate::refusing::refuse_unreached;
use fit_changes::{Line, Rule};
use fit_parts::{Below, Heading, Web, is_whole};
use sg_text::NoMemory;
use std::alloc::Global;
use vl_tree::{Part, Source};

fn is_outside(line: &Line, below: &Below<'_>) -> bool
    ensures { result ≡ is_outside (holds below.now) (line_seen line.now) }
{
    match line.rule {
        Rule::Unused => !below.holds(&line.part),
        _ => true,
    }
}

fn all_outside(lines: &[Line], below: &Below<'_>) -> bool
    ensures { result ≡ list_all (λ l. is_outside (holds below.now) (line_seen l)) lines.now }
{
    lines.iter().all(|line| is_outside(line, below))
}

fn text_of<'a>(part: &Part<'a>) -> &'a [u8] {
    match part {
        Part::Module(module) => module.name.text,
        Part::Primitive(primitive) => primitive.name.text,
    }
}

// A name, as a part of the tree has it.
fn own_name<'a>(parts: &[Part<'a>], name: &[u8]) -> Option<&'a [u8]> {
    for part in parts {
        let own = text_of(part);
        if own == name {
            return Some(own);
        }
    }
    None
}

// The names below the top.
fn below_top<'a>(
    alloc: Global,
    read: &[Heading<'_>],
    tree: &Source<'a>,
    top: Option<&[u8]>,
) -> Result<Below<'a>, NoMemory> {
    let mut web = Web::new(alloc);
    for part in &tree.parts {
        web.add(part)?;
    }
    match web.top(read, top)? {
        Some(name) => web.below(own_name(&tree.parts, name)),
        None => Ok(Below::All),
    }
}

/// Refuses files that aren't taken, or in which something is missing that is below the top of the parts that were read.
pub fn check(
    alloc: Global,
    files: &[Vec<u8>],
    lines: &[Line],
    headings: &[Heading<'_>],
    top: Option<&[u8]>,
) -> Result<(), FitError>
    ensures accepted { OnOk result (IsAccepted (texts files.now)) }
    ensures kept { OnOk result ((expanded : List (List ℕ)) → (tokens : List Lexeme) → Lexes expanded (Ok tokens) → map heading_seen headings.now ≡ headings_of tokens
        → IsKept (option_map (λ n. n.now) top.entry) expanded (texts files.now) (map line_seen lines.now)) }
    ensures refused { IfErr result Tells }
{
    let tree = read_files(alloc, files)?;
    let below = below_top(alloc, headings, &tree, top)?;
    if !is_whole(alloc, headings, &tree, top, &below)? {
        return Err(refuse_unreached(alloc));
    }
    if !all_outside(lines, &below) {
        return Err(refuse_unreached(alloc));
    }
    Ok(())
}
