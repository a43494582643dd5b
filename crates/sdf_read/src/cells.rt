// Readers of cells.
ghost use Rattle.std.specs.Prelude.{◌≡◌, ◌||◌, is_some, map};
ghost use Rattle.std.specs.Option.{option_map};
ghost use Rattle.grammar.specs.Reading.{Gives};
ghost use Rattle.grammar.specs.Rule.{stands};
ghost use Rattle.sdf_lex.specs.Seen.{lexeme};
ghost use Rattle.sdf_tree.specs.Files as files;
ghost use Rattle.sdf_tree.specs.Kinds as kinds;
ghost use Rattle.sdf_tree.specs.Kinds.{kind_of};
ghost use Rattle.sdf_tree.specs.Rules as rules;
ghost use Rattle.sdf_tree.specs.Seen.{view_cell, view_instance, view_part};
ghost use Rattle.sdf_read.specs.Cells.{view_part_body};
ghost use Rattle.sdf_terms.specs.Tokens.{found};

use crate::checks::Checks;
use crate::groups::Groups;
use grammar::ReadFault;
use sdf_lex::{Lexeme, Token};
use sdf_terms::balanced::balanced;
use sdf_terms::named::{SkippedParts, named};
use sdf_terms::parts::{Form, Part, many};
use sdf_terms::tokens::{is_select, is_star, is_word, left, place_at, right, text, token_at, word};
use sdf_tree::{
    Divider, Instance, Keyword, Skipped, WrittenCell, WrittenCheck, WrittenGroup, WrittenPart,
    is_instance_path,
};
use sg_text::Place;
use std::alloc::Global;

/// What stands in parentheses in a cell.
#[derive(Drop)]
pub enum PartBody<'a> {
    Delays(Vec<WrittenGroup<'a>>),
    Checks(Vec<WrittenCheck<'a>>),
    Skipped(Skipped),
}

/// `DELAY { group } | TIMINGCHECK { check } | (TIMINGENV | LABEL) balanced`
#[tactic(auto, using(crate::proofs::PartsExact::group_part, crate::proofs::PartsExact::check_part), unfolding(sdf_tree::specs::Files::part_body_parts))]
fn part_body<'a>(
    alloc: Global,
    tokens: &[Token<'a>],
    at: usize,
    form: Form,
) -> Result<(PartBody<'a>, usize), ReadFault>
    ensures { Gives (λ x. (view_part_body x.0, x.1)) result ((files.part_body form.limited form.divider).read (map lexeme tokens.now) at) }
{
    if is_word(tokens, at, Keyword::Delay) {
        let next = word(tokens, at, Keyword::Delay)?;
        let (groups, next) = many::<Groups>(alloc, tokens, next, form)?;
        return Ok((PartBody::Delays(groups), next));
    }
    if is_word(tokens, at, Keyword::TimingCheck) {
        let next = word(tokens, at, Keyword::TimingCheck)?;
        let (checks, next) = many::<Checks>(alloc, tokens, next, form)?;
        return Ok((PartBody::Checks(checks), next));
    }
    let (construct, next) = named::<SkippedParts>(tokens, at)?;
    let next = balanced(tokens, next)?;
    Ok((PartBody::Skipped(construct), next))
}

fn part_of<'a>(place: Place, body: PartBody<'a>) -> WrittenPart<'a>
    ensures { view_part result ≡ files.part_of place (view_part_body body.entry) }
{
    match body {
        PartBody::Delays(groups) => WrittenPart::Delays(groups),
        PartBody::Checks(checks) => WrittenPart::Checks(checks),
        PartBody::Skipped(construct) => WrittenPart::Skipped { place, construct },
    }
}

/// `"(" part-body ")"`
#[tactic(auto, unfolding(sdf_tree::specs::Files::part_parts))]
fn part<'a>(
    alloc: Global,
    tokens: &[Token<'a>],
    at: usize,
    form: Form,
) -> Result<(WrittenPart<'a>, usize), ReadFault>
    ensures { Gives (λ x. (view_part x.0, x.1)) result ((files.part form.limited form.divider).read (map lexeme tokens.now) at) }
{
    let next = left(tokens, at)?;
    let (body, next) = part_body(alloc, tokens, next, form)?;
    let next = right(tokens, next)?;
    let place = place_at(tokens, at)?;
    Ok((part_of(place, body), next))
}

/// A part of a cell.
pub struct Parts;

impl<'a> Part<'a> for Parts {
    type Value = WrittenPart<'a>;

    ghost use Rattle.sdf_tree.specs.Written.{Part as PartSeen};
    ghost use Rattle.sdf_tree.specs.Files as files;
    ghost use Rattle.sdf_tree.specs.Seen.{view_part};

    ghost Tree = { PartSeen };

    ghost rule = { λ form. files.part form.limited form.divider };

    ghost view = { view_part };

    fn read(
        alloc: Global,
        tokens: &[Token<'a>],
        at: usize,
        form: Form,
    ) -> Result<(WrittenPart<'a>, usize), ReadFault> {
        part(alloc, tokens, at, form)
    }
}

/// `"(" CELLTYPE text ")"`
#[tactic(auto, unfolding(sdf_tree::specs::Files::cell_type_parts))]
pub fn cell_type<'a>(tokens: &[Token<'a>], at: usize) -> Result<(&'a [u8], usize), ReadFault>
    ensures { Gives (λ x. (x.0.now, x.1)) result (files.cell_type.read (map lexeme tokens.now) at) }
{
    let next = left(tokens, at)?;
    let next = word(tokens, next, Keyword::CellType)?;
    let (text, next) = text(tokens, next)?;
    let next = right(tokens, next)?;
    Ok((text, next))
}

/// The path of the instance that stands there, with its bit select.
fn instance_word_at<'a>(tokens: &[Token<'a>], at: usize, divider: Divider) -> Option<&'a [u8]>
    ensures read { (rules.token (λ t. kinds.word_text t.meaning) (kinds.is_instance divider)).read (map lexeme tokens.now) at ≡ found (option_map (λ path. path.now) result) at }
    ensures stands { stands kind_of (kinds.is_instance divider) (map lexeme tokens.now) at ≡ is_some result }
{
    match token_at(tokens, at) {
        Some(
            Token {
                lexeme: Lexeme::Word(text),
                ..
            },
        ) if is_instance_path(divider, text) => Some(text),
        Some(
            Token {
                lexeme: Lexeme::Selected { whole, .. },
                ..
            },
        ) if is_instance_path(divider, whole) => Some(whole),
        _ => None,
    }
}

/// Whether an instance stands there.
fn instance_stands(tokens: &[Token<'_>], at: usize, divider: Divider) -> bool
    ensures { result ≡ stands kind_of (λ k. kinds.is_star k || kinds.is_instance divider k) (map lexeme tokens.now) at }
{
    is_star(tokens, at) || instance_word_at(tokens, at, divider).is_some()
}

/// `"*" | instance-path`
#[tactic(auto, using(sdf_terms::proofs::Marks::mark_stands))]
fn instance_there<'a>(
    tokens: &[Token<'a>],
    at: usize,
    divider: Divider,
) -> Result<(Instance<'a>, usize), ReadFault>
    ensures { Gives (λ x. (view_instance x.0, x.1)) result ((files.instance_there divider).read (map lexeme tokens.now) at) }
{
    if is_star(tokens, at) {
        return Ok((Instance::All, at + 1));
    }
    let Some(path) = instance_word_at(tokens, at, divider) else {
        return Err(ReadFault::At(at));
    };
    let next = if is_select(tokens, at + 1) {
        at + 2
    } else {
        at + 1
    };
    Ok((Instance::Path(path), next))
}

/// `[ "*" | instance-path ]`
fn optional_instance<'a>(
    tokens: &[Token<'a>],
    at: usize,
    divider: Divider,
) -> Result<(Option<Instance<'a>>, usize), ReadFault>
    ensures { Gives (λ x. (option_map view_instance x.0, x.1)) result ((rules.optional (files.instance_there divider)).read (map lexeme tokens.now) at) }
{
    if !instance_stands(tokens, at, divider) {
        return Ok((None, at));
    }
    let (found, next) = instance_there(tokens, at, divider)?;
    Ok((Some(found), next))
}

/// `"(" INSTANCE [ "*" | instance-path ] ")"`
#[tactic(auto, unfolding(sdf_tree::specs::Files::instance_parts))]
pub fn instance<'a>(
    tokens: &[Token<'a>],
    at: usize,
    divider: Divider,
) -> Result<(Instance<'a>, usize), ReadFault>
    ensures { Gives (λ x. (view_instance x.0, x.1)) result ((files.instance divider).read (map lexeme tokens.now) at) }
{
    let next = left(tokens, at)?;
    let next = word(tokens, next, Keyword::Instance)?;
    let (found, next) = optional_instance(tokens, next, divider)?;
    let next = right(tokens, next)?;
    match found {
        Some(instance) => Ok((instance, next)),
        None => Ok((Instance::Top, next)),
    }
}

/// `CELL cell-type instance { part }`
#[tactic(auto, using(crate::proofs::PartsExact::cell_part), unfolding(sdf_tree::specs::Files::cell_parts))]
pub fn cell<'a>(
    alloc: Global,
    tokens: &[Token<'a>],
    at: usize,
    form: Form,
) -> Result<(WrittenCell<'a>, usize), ReadFault>
    ensures { Gives (λ x. (view_cell x.0, x.1)) result ((files.cell form.limited form.divider).read (map lexeme tokens.now) at) }
{
    let next = word(tokens, at, Keyword::Cell)?;
    let (cell_type, next) = cell_type(tokens, next)?;
    let (instance, next) = instance(tokens, next, form.divider)?;
    let (parts, next) = many::<Parts>(alloc, tokens, next, form)?;
    Ok((
        WrittenCell {
            cell_type,
            instance,
            parts,
        },
        next,
    ))
}
