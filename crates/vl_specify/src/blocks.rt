// Readers of specify blocks.
ghost use Rattle.std.specs.Prelude.{map};
ghost use Rattle.grammar.specs.Reading.{Gives};
ghost use Rattle.vl_token.specs.Seen.{lexeme};
ghost use Rattle.vl_tree.specs.Rules as rules;
ghost use Rattle.vl_tree.specs.Seen.{view_block, view_specify_item};
ghost use Rattle.vl_tree.specs.Specify as specify;

use crate::items::{specify_item, specify_item_stands};
use grammar::ReadFault;
use sg_text::Keyword;
use std::alloc::Global;
use vl_terms::lists::{ListPart, many};
use vl_terms::tokens::{place_at, word};
use vl_token::Token;
use vl_tree::{SpecifyBlock, SpecifyItem};

/// An item among others.
struct LimitedItem;

impl<'a> ListPart<'a> for LimitedItem {
    type Value = SpecifyItem<'a>;

    ghost use Rattle.std.specs.Prelude.{true};
    ghost use Rattle.vl_tree.specs.Tree.{SpecifyItem as TreeSeen};
    ghost use Rattle.vl_tree.specs.Specify as specify;
    ghost use Rattle.vl_tree.specs.Seen.{view_specify_item};

    ghost Tree = { TreeSeen };

    ghost rule = { specify.specify_item true };

    ghost view = { view_specify_item };

    fn begins(tokens: &[Token<'a>], at: usize) -> bool {
        specify_item_stands(tokens, at)
    }

    fn read(
        alloc: Global,
        tokens: &[Token<'a>],
        at: usize,
    ) -> Result<(SpecifyItem<'a>, usize), ReadFault> {
        specify_item(alloc, tokens, at, true)
    }
}

/// The same, with the limits lifted.
struct LiftedItem;

impl<'a> ListPart<'a> for LiftedItem {
    type Value = SpecifyItem<'a>;

    ghost use Rattle.std.specs.Prelude.{false};
    ghost use Rattle.vl_tree.specs.Tree.{SpecifyItem as TreeSeen};
    ghost use Rattle.vl_tree.specs.Specify as specify;
    ghost use Rattle.vl_tree.specs.Seen.{view_specify_item};

    ghost Tree = { TreeSeen };

    ghost rule = { specify.specify_item false };

    ghost view = { view_specify_item };

    fn begins(tokens: &[Token<'a>], at: usize) -> bool {
        specify_item_stands(tokens, at)
    }

    fn read(
        alloc: Global,
        tokens: &[Token<'a>],
        at: usize,
    ) -> Result<(SpecifyItem<'a>, usize), ReadFault> {
        specify_item(alloc, tokens, at, false)
    }
}

/// `{ item }`
#[tactic(auto, using(crate::proofs::Lists::limited_item, crate::proofs::Lists::lifted_item))]
fn specify_items<'a>(
    alloc: Global,
    tokens: &[Token<'a>],
    at: usize,
    limited: bool,
) -> Result<(Vec<SpecifyItem<'a>>, usize), ReadFault>
    ensures { Gives (λ x. (map view_specify_item x.0.items, x.1)) result ((rules.many (specify.specify_item limited)).read (map lexeme tokens.now) at) }
{
    if limited {
        return many::<LimitedItem>(alloc, tokens, at);
    }
    many::<LiftedItem>(alloc, tokens, at)
}

/// `"specify" { item } "endspecify"`. Where it isn't limited, lists of delays have any length, and arguments of checks that may not
/// be filled may be.
#[tactic(auto, unfolding(vl_tree::specs::Specify::block_parts))]
pub fn block<'a>(
    alloc: Global,
    tokens: &[Token<'a>],
    at: usize,
    limited: bool,
) -> Result<(SpecifyBlock<'a>, usize), ReadFault>
    ensures { Gives (λ x. (view_block x.0, x.1)) result ((specify.block limited).read (map lexeme tokens.now) at) }
{
    let next = word(tokens, at, Keyword::Specify)?;
    let (items, next) = specify_items(alloc, tokens, next, limited)?;
    let next = word(tokens, next, Keyword::EndSpecify)?;
    let place = place_at(tokens, at)?;
    Ok((SpecifyBlock { place, items }, next))
}
