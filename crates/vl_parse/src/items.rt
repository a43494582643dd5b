// Readers of the items of modules.
ghost use Rattle.std.specs.Prelude.{◌≡◌, map, option_map};
ghost use Rattle.grammar.specs.Reading.{Gives};
ghost use Rattle.grammar.specs.Rule.{stands};
ghost use Rattle.vl_token.specs.Seen.{lexeme};
ghost use Rattle.vl_tree.specs.Items as items;
ghost use Rattle.vl_tree.specs.Items.{direction_starts, gate_starts, item_starts, net_type_starts, supply_starts};
ghost use Rattle.vl_tree.specs.Kinds.{kind_of};
ghost use Rattle.vl_tree.specs.Rules as rules;
ghost use Rattle.vl_tree.specs.Seen.{view_item};

use crate::declarations::{
    direction, direction_stands, net_type, net_type_stands, optional_net_type, supply,
    supply_stands,
};
use crate::gates::{gate, gate_stands};
use crate::item_parts::{GateInstancePart, InstancePart, JoinPart, NetNamePart};
use grammar::ReadFault;
use sg_text::Keyword;
use std::alloc::Global;
use vl_specify::block;
use vl_terms::delays::optional_delay;
use vl_terms::lists::listed;
use vl_terms::names::{names, optional_range};
use vl_terms::tokens::{is_name, is_word, mark, name, place_at, word};
use vl_token::{Symbol, Token};
use vl_tree::Item;

/// `direction [ "wire" | "tri" ] [ range ] names ";"`
#[tactic(auto, unfolding(vl_tree::specs::Items::port_item_parts))]
fn port_item<'a>(
    alloc: Global,
    tokens: &[Token<'a>],
    at: usize,
) -> Result<(Item<'a>, usize), ReadFault>
    ensures { Gives (λ x. (view_item x.0, x.1)) result (items.port_item.read (map lexeme tokens.now) at) }
{
    let (direction, next) = direction(tokens, at)?;
    let (net, next) = optional_net_type(tokens, next)?;
    let (range, next) = optional_range(tokens, next)?;
    let (names, next) = names(alloc, tokens, next)?;
    let next = mark(tokens, next, Symbol::Semicolon)?;
    let place = place_at(tokens, at)?;
    let item = Item::Ports {
        place,
        direction,
        net,
        range,
        names,
    };
    Ok((item, next))
}

/// `( "wire" | "tri" ) [ range ] net-name { "," net-name } ";"`
#[tactic(auto, using(vl_tree::proofs::Lists::comma_net_name), unfolding(vl_tree::specs::Items::net_item_parts))]
fn net_item<'a>(
    alloc: Global,
    tokens: &[Token<'a>],
    at: usize,
) -> Result<(Item<'a>, usize), ReadFault>
    ensures { Gives (λ x. (view_item x.0, x.1)) result (items.net_item.read (map lexeme tokens.now) at) }
{
    let (net, next) = net_type(tokens, at)?;
    let (range, next) = optional_range(tokens, next)?;
    let (names, next) = listed::<NetNamePart>(alloc, tokens, next)?;
    let next = mark(tokens, next, Symbol::Semicolon)?;
    let place = place_at(tokens, at)?;
    let item = Item::Nets {
        place,
        net,
        range,
        names,
    };
    Ok((item, next))
}

/// `( "supply0" | "supply1" ) [ range ] names ";"`
#[tactic(auto, unfolding(vl_tree::specs::Items::supply_item_parts))]
fn supply_item<'a>(
    alloc: Global,
    tokens: &[Token<'a>],
    at: usize,
) -> Result<(Item<'a>, usize), ReadFault>
    ensures { Gives (λ x. (view_item x.0, x.1)) result (items.supply_item.read (map lexeme tokens.now) at) }
{
    let (supply, next) = supply(tokens, at)?;
    let (range, next) = optional_range(tokens, next)?;
    let (names, next) = names(alloc, tokens, next)?;
    let next = mark(tokens, next, Symbol::Semicolon)?;
    let place = place_at(tokens, at)?;
    let item = Item::Supplies {
        place,
        supply,
        range,
        names,
    };
    Ok((item, next))
}

/// `"reg" names ";"`
#[tactic(auto, unfolding(vl_tree::specs::Items::register_item_parts))]
fn register_item<'a>(
    alloc: Global,
    tokens: &[Token<'a>],
    at: usize,
) -> Result<(Item<'a>, usize), ReadFault>
    ensures { Gives (λ x. (view_item x.0, x.1)) result (items.register_item.read (map lexeme tokens.now) at) }
{
    let next = word(tokens, at, Keyword::Reg)?;
    let (names, next) = names(alloc, tokens, next)?;
    let next = mark(tokens, next, Symbol::Semicolon)?;
    let place = place_at(tokens, at)?;
    Ok((Item::Registers { place, names }, next))
}

/// `"assign" join { "," join } ";"`
#[tactic(auto, using(vl_tree::proofs::Lists::comma_join), unfolding(vl_tree::specs::Items::assign_item_parts))]
fn assign_item<'a>(
    alloc: Global,
    tokens: &[Token<'a>],
    at: usize,
) -> Result<(Item<'a>, usize), ReadFault>
    ensures { Gives (λ x. (view_item x.0, x.1)) result (items.assign_item.read (map lexeme tokens.now) at) }
{
    let next = word(tokens, at, Keyword::Assign)?;
    let (joins, next) = listed::<JoinPart>(alloc, tokens, next)?;
    let next = mark(tokens, next, Symbol::Semicolon)?;
    let place = place_at(tokens, at)?;
    Ok((Item::Assigns { place, joins }, next))
}

/// `gate [ delay ] gate-instance { "," gate-instance } ";"`
#[tactic(auto, using(vl_tree::proofs::Lists::comma_gate_instance), unfolding(vl_tree::specs::Items::gate_item_parts))]
fn gate_item<'a>(
    alloc: Global,
    tokens: &[Token<'a>],
    at: usize,
) -> Result<(Item<'a>, usize), ReadFault>
    ensures { Gives (λ x. (view_item x.0, x.1)) result (items.gate_item.read (map lexeme tokens.now) at) }
{
    let (gate, next) = gate(tokens, at)?;
    let (delay, next) = optional_delay(alloc, tokens, next)?;
    let (instances, next) = listed::<GateInstancePart>(alloc, tokens, next)?;
    let next = mark(tokens, next, Symbol::Semicolon)?;
    let place = place_at(tokens, at)?;
    let item = Item::Gates {
        place,
        gate,
        delay,
        instances,
    };
    Ok((item, next))
}

/// `name [ delay ] instance { "," instance } ";"`
#[tactic(auto, using(vl_tree::proofs::Lists::comma_instance), unfolding(vl_tree::specs::Items::instance_item_parts))]
fn instance_item<'a>(
    alloc: Global,
    tokens: &[Token<'a>],
    at: usize,
) -> Result<(Item<'a>, usize), ReadFault>
    ensures { Gives (λ x. (view_item x.0, x.1)) result (items.instance_item.read (map lexeme tokens.now) at) }
{
    let (module, next) = name(tokens, at)?;
    let (delay, next) = optional_delay(alloc, tokens, next)?;
    let (instances, next) = listed::<InstancePart>(alloc, tokens, next)?;
    let next = mark(tokens, next, Symbol::Semicolon)?;
    let item = Item::Instances {
        module,
        delay,
        instances,
    };
    Ok((item, next))
}

/// `"specify" { specify-item } "endspecify"`
#[tactic(auto, unfolding(vl_tree::specs::Items::block_item_parts))]
fn block_item<'a>(
    alloc: Global,
    tokens: &[Token<'a>],
    at: usize,
) -> Result<(Item<'a>, usize), ReadFault>
    ensures { Gives (λ x. (view_item x.0, x.1)) result (items.block_item.read (map lexeme tokens.now) at) }
{
    let (block, next) = block(alloc, tokens, at, true)?;
    Ok((Item::Specify(block), next))
}

/// Whether an item begins there.
pub fn item_stands(tokens: &[Token<'_>], at: usize) -> bool
    ensures { result ≡ stands kind_of item_starts (map lexeme tokens.now) at }
{
    direction_stands(tokens, at)
        || net_type_stands(tokens, at)
        || supply_stands(tokens, at)
        || is_word(tokens, at, Keyword::Reg)
        || is_word(tokens, at, Keyword::Assign)
        || gate_stands(tokens, at)
        || is_word(tokens, at, Keyword::Specify)
        || is_name(tokens, at)
}

/// An item of a module.
#[tactic(auto, unfolding(vl_tree::specs::Items::item_parts))]
pub fn item<'a>(
    alloc: Global,
    tokens: &[Token<'a>],
    at: usize,
) -> Result<(Item<'a>, usize), ReadFault>
    ensures { Gives (λ x. (view_item x.0, x.1)) result (items.item.read (map lexeme tokens.now) at) }
{
    if direction_stands(tokens, at) {
        return port_item(alloc, tokens, at);
    }
    if net_type_stands(tokens, at) {
        return net_item(alloc, tokens, at);
    }
    if supply_stands(tokens, at) {
        return supply_item(alloc, tokens, at);
    }
    if is_word(tokens, at, Keyword::Reg) {
        return register_item(alloc, tokens, at);
    }
    if is_word(tokens, at, Keyword::Assign) {
        return assign_item(alloc, tokens, at);
    }
    if gate_stands(tokens, at) {
        return gate_item(alloc, tokens, at);
    }
    if is_word(tokens, at, Keyword::Specify) {
        return block_item(alloc, tokens, at);
    }
    instance_item(alloc, tokens, at)
}
