// Readers of the items of specify blocks.
ghost use Rattle.std.specs.Prelude.{◌≡◌, map};
ghost use Rattle.grammar.specs.Reading.{Gives};
ghost use Rattle.grammar.specs.Rule.{stands};
ghost use Rattle.vl_token.specs.Seen.{lexeme};
ghost use Rattle.vl_tree.specs.Kinds.{kind_of};
ghost use Rattle.vl_tree.specs.Seen.{view_specify_item};
ghost use Rattle.vl_tree.specs.Specify as specify;
ghost use Rattle.vl_tree.specs.Specify.{specify_item_starts, style_starts};

use crate::paths::{path, path_stands};
use crate::specparams::SpecparamPart;
use crate::terms::terms;
use grammar::ReadFault;
use sg_text::Keyword;
use std::alloc::Global;
use vl_checks::{check, is_check};
use vl_terms::lists::listed;
use vl_terms::tokens::{is_word, mark, place_at, word};
use vl_token::{Symbol, Token};
use vl_tree::{PulseStyle, SpecifyItem};

/// `"specparam" specparam { "," specparam } ";"`
#[tactic(auto, using(crate::proofs::Lists::comma_specparam), unfolding(vl_tree::specs::Specify::specparam_item_parts))]
fn specparam_item<'a>(
    alloc: Global,
    tokens: &[Token<'a>],
    at: usize,
) -> Result<(SpecifyItem<'a>, usize), ReadFault>
    ensures { Gives (λ x. (view_specify_item x.0, x.1)) result (specify.specparam_item.read (map lexeme tokens.now) at) }
{
    let next = word(tokens, at, Keyword::SpecParam)?;
    let (parameters, next) = listed::<SpecparamPart>(alloc, tokens, next)?;
    let next = mark(tokens, next, Symbol::Semicolon)?;
    let place = place_at(tokens, at)?;
    Ok((SpecifyItem::Specparams { place, parameters }, next))
}

/// `path ";"`
#[tactic(auto, unfolding(vl_tree::specs::Specify::path_item_parts))]
fn path_item<'a>(
    alloc: Global,
    tokens: &[Token<'a>],
    at: usize,
    limited: bool,
) -> Result<(SpecifyItem<'a>, usize), ReadFault>
    ensures { Gives (λ x. (view_specify_item x.0, x.1)) result ((specify.path_item limited).read (map lexeme tokens.now) at) }
{
    let (path, next) = path(alloc, tokens, at, limited)?;
    let next = mark(tokens, next, Symbol::Semicolon)?;
    Ok((SpecifyItem::Path(path), next))
}

/// Whether a word stands there that says what becomes of pulses.
fn style_stands(tokens: &[Token<'_>], at: usize) -> bool
    ensures { result ≡ stands kind_of style_starts (map lexeme tokens.now) at }
{
    is_word(tokens, at, Keyword::PulseStyleOnEvent)
        || is_word(tokens, at, Keyword::PulseStyleOnDetect)
        || is_word(tokens, at, Keyword::NoShowCancelled)
}

/// `"pulsestyle_onevent" | "pulsestyle_ondetect" | "noshowcancelled"`
#[tactic(auto, unfolding(vl_tree::specs::Specify::style_parts))]
fn style(tokens: &[Token<'_>], at: usize) -> Result<(PulseStyle, usize), ReadFault>
    ensures { Gives (λ x. x) result (specify.style.read (map lexeme tokens.now) at) }
{
    if is_word(tokens, at, Keyword::PulseStyleOnEvent) {
        return Ok((PulseStyle::OnEvent, at + 1));
    }
    if is_word(tokens, at, Keyword::PulseStyleOnDetect) {
        return Ok((PulseStyle::OnDetect, at + 1));
    }
    let next = word(tokens, at, Keyword::NoShowCancelled)?;
    Ok((PulseStyle::NoShowCancelled, next))
}

/// `style terms ";"`
#[tactic(auto, unfolding(vl_tree::specs::Specify::style_item_parts))]
fn style_item<'a>(
    alloc: Global,
    tokens: &[Token<'a>],
    at: usize,
) -> Result<(SpecifyItem<'a>, usize), ReadFault>
    ensures { Gives (λ x. (view_specify_item x.0, x.1)) result (specify.style_item.read (map lexeme tokens.now) at) }
{
    let (style, next) = style(tokens, at)?;
    let (terms, next) = terms(alloc, tokens, next)?;
    let next = mark(tokens, next, Symbol::Semicolon)?;
    let place = place_at(tokens, at)?;
    Ok((
        SpecifyItem::PulseStyle {
            place,
            style,
            terms,
        },
        next,
    ))
}

/// `check ";"`
#[tactic(auto, unfolding(vl_tree::specs::Specify::check_item_parts))]
fn check_item<'a>(
    alloc: Global,
    tokens: &[Token<'a>],
    at: usize,
    limited: bool,
) -> Result<(SpecifyItem<'a>, usize), ReadFault>
    ensures { Gives (λ x. (view_specify_item x.0, x.1)) result ((specify.check_item limited).read (map lexeme tokens.now) at) }
{
    let (check, next) = check(alloc, tokens, at, limited)?;
    let next = mark(tokens, next, Symbol::Semicolon)?;
    Ok((SpecifyItem::Check(check), next))
}

/// An item.
#[tactic(auto, unfolding(vl_tree::specs::Specify::specify_item_parts))]
pub fn specify_item<'a>(
    alloc: Global,
    tokens: &[Token<'a>],
    at: usize,
    limited: bool,
) -> Result<(SpecifyItem<'a>, usize), ReadFault>
    ensures { Gives (λ x. (view_specify_item x.0, x.1)) result ((specify.specify_item limited).read (map lexeme tokens.now) at) }
{
    if is_word(tokens, at, Keyword::SpecParam) {
        return specparam_item(alloc, tokens, at);
    }
    if path_stands(tokens, at) {
        return path_item(alloc, tokens, at, limited);
    }
    if style_stands(tokens, at) {
        return style_item(alloc, tokens, at);
    }
    check_item(alloc, tokens, at, limited)
}

/// Whether an item begins there.
pub fn specify_item_stands(tokens: &[Token<'_>], at: usize) -> bool
    ensures { result ≡ stands kind_of specify_item_starts (map lexeme tokens.now) at }
{
    is_word(tokens, at, Keyword::SpecParam)
        || path_stands(tokens, at)
        || style_stands(tokens, at)
        || is_check(tokens, at)
}
