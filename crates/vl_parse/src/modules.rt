// Readers of modules.
ghost use Rattle.std.specs.Prelude.{◌≡◌, map, option_map};
ghost use Rattle.grammar.specs.Reading.{Gives};
ghost use Rattle.grammar.specs.Rule.{stands};
ghost use Rattle.vl_token.specs.Seen.{lexeme, settings};
ghost use Rattle.vl_tree.specs.Kinds.{kind_of, is_module};
ghost use Rattle.vl_tree.specs.Modules as modules;
ghost use Rattle.vl_tree.specs.Modules.{head_port_starts};
ghost use Rattle.vl_tree.specs.Rules as rules;
ghost use Rattle.vl_tree.specs.Seen.{view_head, view_head_port, view_module, view_port_declaration};

use crate::declarations::{direction, direction_stands, optional_net_type};
use crate::items::{item, item_stands};
use grammar::ReadFault;
use sg_text::{Keyword, Place};
use std::alloc::Global;
use vl_terms::lists::{ListPart, many};
use vl_terms::names::{names, optional_range};
use vl_terms::tokens::{is_mark, is_name, mark, name, place_at, token_at, word};
use vl_token::{Mark, Symbol, Token, TokenKind};
use vl_tree::{Head, HeadPort, Item, Module, PortDeclaration};

/// `direction [ "wire" | "tri" ] [ range ] name`
#[tactic(auto, unfolding(vl_tree::specs::Modules::port_declaration_parts))]
fn port_declaration<'a>(
    tokens: &[Token<'a>],
    at: usize,
) -> Result<(PortDeclaration<'a>, usize), ReadFault>
    ensures { Gives (λ x. (view_port_declaration x.0, x.1)) result (modules.port_declaration.read (map lexeme tokens.now) at) }
{
    let (direction, next) = direction(tokens, at)?;
    let (net, next) = optional_net_type(tokens, next)?;
    let (range, next) = optional_range(tokens, next)?;
    let (name, next) = name(tokens, next)?;
    let place = place_at(tokens, at)?;
    let declaration = PortDeclaration {
        place,
        direction,
        net,
        range,
        name,
    };
    Ok((declaration, next))
}

/// `port-declaration | name`
#[tactic(auto, unfolding(vl_tree::specs::Modules::head_port_parts))]
fn head_port<'a>(tokens: &[Token<'a>], at: usize) -> Result<(HeadPort<'a>, usize), ReadFault>
    ensures { Gives (λ x. (view_head_port x.0, x.1)) result (modules.head_port.read (map lexeme tokens.now) at) }
{
    if direction_stands(tokens, at) {
        let (declaration, next) = port_declaration(tokens, at)?;
        return Ok((HeadPort::Declaration(declaration), next));
    }
    let (name, next) = name(tokens, at)?;
    Ok((HeadPort::Name(name), next))
}

/// `"," head-port`
struct HeadPortPart;

impl<'a> ListPart<'a> for HeadPortPart {
    type Value = HeadPort<'a>;

    ghost use Rattle.grammar.specs.Rule.{◌▸◌};
    ghost use Rattle.vl_token.specs.declared.symbols.Symbol.TheVariants.{Comma};
    ghost use Rattle.vl_tree.specs.Tree.{HeadPort as TreeSeen};
    ghost use Rattle.vl_tree.specs.Modules as modules;
    ghost use Rattle.vl_tree.specs.Rules as rules;
    ghost use Rattle.vl_tree.specs.Seen.{view_head_port};

    ghost Tree = { TreeSeen };

    ghost rule = { rules.mark Comma ▸ modules.head_port };

    ghost view = { view_head_port };

    fn begins(tokens: &[Token<'a>], at: usize) -> bool {
        is_mark(tokens, at, Symbol::Comma)
    }

    fn read(
        _: Global,
        tokens: &[Token<'a>],
        at: usize,
    ) -> Result<(HeadPort<'a>, usize), ReadFault> {
        let next = mark(tokens, at, Symbol::Comma)?;
        head_port(tokens, next)
    }
}

/// `names | port-declaration { "," head-port }`
#[tactic(auto, using(vl_tree::proofs::Lists::comma_head_port), unfolding(vl_tree::specs::Modules::head_parts))]
fn head<'a>(alloc: Global, tokens: &[Token<'a>], at: usize) -> Result<(Head<'a>, usize), ReadFault>
    ensures { Gives (λ x. (view_head x.0, x.1)) result (modules.head.read (map lexeme tokens.now) at) }
{
    if is_name(tokens, at) {
        let (names, next) = names(alloc, tokens, at)?;
        return Ok((Head::Names(names), next));
    }
    let (first, next) = port_declaration(tokens, at)?;
    let (rest, next) = many::<HeadPortPart>(alloc, tokens, next)?;
    Ok((Head::Declarations { first, rest }, next))
}

/// Whether a port of a head stands there.
fn head_port_stands(tokens: &[Token<'_>], at: usize) -> bool
    ensures { result ≡ stands kind_of head_port_starts (map lexeme tokens.now) at }
{
    direction_stands(tokens, at) || is_name(tokens, at)
}

/// `[ head ]`
fn optional_head<'a>(
    alloc: Global,
    tokens: &[Token<'a>],
    at: usize,
) -> Result<(Option<Head<'a>>, usize), ReadFault>
    ensures { Gives (λ x. (option_map view_head x.0, x.1)) result ((rules.optional modules.head).read (map lexeme tokens.now) at) }
{
    if !head_port_stands(tokens, at) {
        return Ok((None, at));
    }
    let (found, next) = head(alloc, tokens, at)?;
    Ok((Some(found), next))
}

/// `"(" [ head ] ")"`
#[tactic(auto, unfolding(vl_tree::specs::Modules::port_list_parts))]
fn port_list<'a>(
    alloc: Global,
    tokens: &[Token<'a>],
    at: usize,
) -> Result<(Option<Head<'a>>, usize), ReadFault>
    ensures { Gives (λ x. (option_map view_head x.0, x.1)) result (modules.port_list.read (map lexeme tokens.now) at) }
{
    let next = mark(tokens, at, Symbol::LeftParen)?;
    let (found, next) = optional_head(alloc, tokens, next)?;
    let next = mark(tokens, next, Symbol::RightParen)?;
    Ok((found, next))
}

/// `[ "(" [ head ] ")" ]`
fn optional_port_list<'a>(
    alloc: Global,
    tokens: &[Token<'a>],
    at: usize,
) -> Result<(Option<Option<Head<'a>>>, usize), ReadFault>
    ensures { Gives (λ x. (option_map (option_map view_head) x.0, x.1)) result ((rules.optional modules.port_list).read (map lexeme tokens.now) at) }
{
    if !is_mark(tokens, at, Symbol::LeftParen) {
        return Ok((None, at));
    }
    let (found, next) = port_list(alloc, tokens, at)?;
    Ok((Some(found), next))
}

/// Whether the word of a module stands there.
pub fn is_module(tokens: &[Token<'_>], at: usize) -> bool
    ensures { result ≡ stands kind_of is_module (map lexeme tokens.now) at }
{
    matches!(
        token_at(tokens, at),
        Some(Token {
            kind: TokenKind::Module(_),
            ..
        })
    )
}

/// `"module" | "macromodule"`
fn module_word(tokens: &[Token<'_>], at: usize) -> Result<(Place, Mark, usize), ReadFault>
    ensures { Gives (λ x. ((x.0, settings x.1), x.2)) result (modules.module_word.read (map lexeme tokens.now) at) }
{
    match token_at(tokens, at) {
        Some(
            Token {
                kind: TokenKind::Module(mark),
                place,
            },
        ) => Ok((place, mark, at + 1)),
        _ => Err(ReadFault::At(at)),
    }
}

/// An item in a module.
struct ItemPart;

impl<'a> ListPart<'a> for ItemPart {
    type Value = Item<'a>;

    ghost use Rattle.vl_tree.specs.Tree.{Item as TreeSeen};
    ghost use Rattle.vl_tree.specs.Items as items;
    ghost use Rattle.vl_tree.specs.Seen.{view_item};

    ghost Tree = { TreeSeen };

    ghost rule = { items.item };

    ghost view = { view_item };

    fn begins(tokens: &[Token<'a>], at: usize) -> bool {
        item_stands(tokens, at)
    }

    fn read(
        alloc: Global,
        tokens: &[Token<'a>],
        at: usize,
    ) -> Result<(Item<'a>, usize), ReadFault> {
        item(alloc, tokens, at)
    }
}

/// `( "module" | "macromodule" ) name [ "(" [ head ] ")" ] ";" { item } "endmodule"`
#[tactic(auto, using(vl_tree::proofs::Lists::one_item), unfolding(vl_tree::specs::Modules::module_parts))]
pub fn module<'a>(
    alloc: Global,
    tokens: &[Token<'a>],
    at: usize,
) -> Result<(Module<'a>, usize), ReadFault>
    ensures { Gives (λ x. (view_module x.0, x.1)) result (modules.module_rule.read (map lexeme tokens.now) at) }
{
    let (place, mark_of_module, next) = module_word(tokens, at)?;
    let (name, next) = name(tokens, next)?;
    let (head, next) = optional_port_list(alloc, tokens, next)?;
    let next = mark(tokens, next, Symbol::Semicolon)?;
    let (items, next) = many::<ItemPart>(alloc, tokens, next)?;
    let next = word(tokens, next, Keyword::EndModule)?;
    let module = Module {
        place,
        mark: mark_of_module,
        name,
        head,
        items,
    };
    Ok((module, next))
}
