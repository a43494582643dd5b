// Readers of the limits of timing checks.
ghost use Rattle.std.specs.Prelude.{◌≡◌, false, map, option_map};
ghost use Rattle.grammar.specs.Reading.{Gives};
ghost use Rattle.grammar.specs.Rule.{only_if, stands};
ghost use Rattle.vl_token.specs.declared.symbols.Symbol.TheVariants as symbol;
ghost use Rattle.vl_token.specs.Seen.{lexeme};
ghost use Rattle.vl_tree.specs.Amounts as amounts;
ghost use Rattle.vl_tree.specs.Amounts.{limit_starts, signed_amount_starts};
ghost use Rattle.vl_tree.specs.Kinds.{kind_of};
ghost use Rattle.vl_tree.specs.Rules as rules;
ghost use Rattle.vl_tree.specs.Seen.{view_limit, view_signed};

use grammar::ReadFault;
use vl_terms::specify::{amount, amount_stands};
use vl_terms::tokens::{is_mark, mark};
use vl_token::{Symbol, Token};
use vl_tree::{Limit, SignedAmount};

/// Whether a sign stands there, and may.
fn sign_stands(tokens: &[Token<'_>], at: usize, signs: bool) -> bool
    ensures { result ≡ stands kind_of (only_if signs (rules.mark symbol.Minus)).starts (map lexeme tokens.now) at }
{
    if !signs {
        return false;
    }
    is_mark(tokens, at, Symbol::Minus)
}

/// `"-"`, where signs are allowed.
fn sign(tokens: &[Token<'_>], at: usize, signs: bool) -> Result<usize, ReadFault>
    ensures { Gives (λ next. (tt, next)) result ((only_if signs (rules.mark symbol.Minus)).read (map lexeme tokens.now) at) }
{
    if !signs {
        return Err(ReadFault::At(at));
    }
    mark(tokens, at, Symbol::Minus)
}

/// `[ "-" ] amount`, the sign where signs are allowed.
#[tactic(auto, unfolding(vl_tree::specs::Amounts::signed_amount_parts))]
fn signed_amount<'a>(
    tokens: &[Token<'a>],
    at: usize,
    signs: bool,
) -> Result<(SignedAmount<'a>, usize), ReadFault>
    ensures { Gives (λ x. (view_signed x.0, x.1)) result ((amounts.signed_amount signs).read (map lexeme tokens.now) at) }
{
    let negative = sign_stands(tokens, at, signs);
    if negative {
        let next = sign(tokens, at, signs)?;
        let (amount, next) = amount(tokens, next)?;
        return Ok((SignedAmount { negative, amount }, next));
    }
    let (amount, next) = amount(tokens, at)?;
    Ok((SignedAmount { negative, amount }, next))
}

/// `limit-amount [ ":" limit-amount ":" limit-amount ]`
#[tactic(auto, unfolding(vl_tree::specs::Amounts::plain_limit_parts))]
fn plain_limit<'a>(
    tokens: &[Token<'a>],
    at: usize,
    signs: bool,
) -> Result<(Limit<'a>, usize), ReadFault>
    ensures { Gives (λ x. (view_limit x.0, x.1)) result ((amounts.plain_limit signs).read (map lexeme tokens.now) at) }
{
    let (min, next) = signed_amount(tokens, at, signs)?;
    if !is_mark(tokens, next, Symbol::Colon) {
        return Ok((Limit::One(min), next));
    }
    let next = mark(tokens, next, Symbol::Colon)?;
    let (typ, next) = signed_amount(tokens, next, signs)?;
    let next = mark(tokens, next, Symbol::Colon)?;
    let (max, next) = signed_amount(tokens, next, signs)?;
    Ok((Limit::Three { min, typ, max }, next))
}

/// Whether a limit without parentheses stands there.
fn plain_limit_stands(tokens: &[Token<'_>], at: usize) -> bool
    ensures { result ≡ stands kind_of signed_amount_starts (map lexeme tokens.now) at }
{
    is_mark(tokens, at, Symbol::Minus) || amount_stands(tokens, at)
}

/// `plain-limit | "(" plain-limit ")"`
#[tactic(auto, unfolding(vl_tree::specs::Amounts::limit_parts))]
pub fn limit<'a>(
    tokens: &[Token<'a>],
    at: usize,
    signs: bool,
) -> Result<(Limit<'a>, usize), ReadFault>
    ensures { Gives (λ x. (view_limit x.0, x.1)) result ((amounts.limit signs).read (map lexeme tokens.now) at) }
{
    if plain_limit_stands(tokens, at) {
        return plain_limit(tokens, at, signs);
    }
    let next = mark(tokens, at, Symbol::LeftParen)?;
    let (limit, next) = plain_limit(tokens, next, signs)?;
    let next = mark(tokens, next, Symbol::RightParen)?;
    Ok((limit, next))
}

/// Whether a limit stands there.
fn limit_stands(tokens: &[Token<'_>], at: usize) -> bool
    ensures { result ≡ stands kind_of limit_starts (map lexeme tokens.now) at }
{
    is_mark(tokens, at, Symbol::LeftParen) || plain_limit_stands(tokens, at)
}

/// `[ limit ]`, without signs
pub fn optional_limit<'a>(
    tokens: &[Token<'a>],
    at: usize,
) -> Result<(Option<Limit<'a>>, usize), ReadFault>
    ensures { Gives (λ x. (option_map view_limit x.0, x.1)) result ((rules.optional (amounts.limit false)).read (map lexeme tokens.now) at) }
{
    if !limit_stands(tokens, at) {
        return Ok((None, at));
    }
    let (found, next) = limit(tokens, at, false)?;
    Ok((Some(found), next))
}
