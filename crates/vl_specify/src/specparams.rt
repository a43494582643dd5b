// Readers of specparams.
ghost use Rattle.std.specs.Prelude.{◌≡◌, map, option_map};
ghost use Rattle.grammar.specs.Reading.{Gives};
ghost use Rattle.grammar.specs.Rule.{◌▸◌, stands};
ghost use Rattle.vl_token.specs.declared.symbols.Symbol.TheVariants as symbol;
ghost use Rattle.vl_token.specs.Seen.{lexeme};
ghost use Rattle.vl_tree.specs.Amounts as amounts;
ghost use Rattle.vl_tree.specs.Amounts.{specparam_starts};
ghost use Rattle.vl_tree.specs.Expressions as expressions;
ghost use Rattle.vl_tree.specs.Kinds.{kind_of, is_pulse_name};
ghost use Rattle.vl_tree.specs.Rules as rules;
ghost use Rattle.vl_tree.specs.Seen.{view_mtm, view_name, view_specparam};

use grammar::ReadFault;
use std::alloc::Global;
use vl_terms::delays::min_typ_max;
use vl_terms::lists::ListPart;
use vl_terms::tokens::{is_mark, is_name, mark, name, token_at};
use vl_token::{Symbol, Token, TokenKind};
use vl_tree::{MinTypMax, Name, Specparam, is_pulse_text};

/// A name of pulse limits.
#[tactic(auto, unfolding(vl_tree::specs::Amounts::pulse_name_parts))]
fn pulse_name<'a>(tokens: &[Token<'a>], at: usize) -> Result<(Name<'a>, usize), ReadFault>
    ensures { Gives (λ x. (view_name x.0, x.1)) result (amounts.pulse_name.read (map lexeme tokens.now) at) }
{
    match token_at(tokens, at) {
        Some(
            Token {
                kind: TokenKind::Name(text),
                place,
            },
        ) if is_pulse_text(text) => Ok((Name { text, place }, at + 1)),
        _ => Err(ReadFault::At(at)),
    }
}

/// Whether a name of pulse limits stands there.
fn is_pulse_name(tokens: &[Token<'_>], at: usize) -> bool
    ensures { result ≡ stands kind_of is_pulse_name (map lexeme tokens.now) at }
{
    match token_at(tokens, at) {
        Some(
            Token {
                kind: TokenKind::Name(text),
                ..
            },
        ) => is_pulse_text(text),
        _ => false,
    }
}

/// `[ "," mtm ]`
fn optional_error(tokens: &[Token<'_>], at: usize) -> Result<(Option<MinTypMax>, usize), ReadFault>
    ensures { Gives (λ x. (option_map view_mtm x.0, x.1)) result ((rules.optional (rules.mark symbol.Comma ▸ expressions.mtm)).read (map lexeme tokens.now) at) }
{
    if !is_mark(tokens, at, Symbol::Comma) {
        return Ok((None, at));
    }
    let next = mark(tokens, at, Symbol::Comma)?;
    let (found, next) = min_typ_max(tokens, next)?;
    Ok((Some(found), next))
}

/// `name "=" mtm | pulse-name "=" "(" mtm [ "," mtm ] ")"`
#[tactic(auto, unfolding(vl_tree::specs::Amounts::specparam_parts))]
fn specparam<'a>(tokens: &[Token<'a>], at: usize) -> Result<(Specparam<'a>, usize), ReadFault>
    ensures { Gives (λ x. (view_specparam x.0, x.1)) result (amounts.specparam.read (map lexeme tokens.now) at) }
{
    if is_name(tokens, at) {
        let (name, next) = name(tokens, at)?;
        let next = mark(tokens, next, Symbol::Assign)?;
        let (value, next) = min_typ_max(tokens, next)?;
        return Ok((Specparam::Value { name, value }, next));
    }
    let (name, next) = pulse_name(tokens, at)?;
    let next = mark(tokens, next, Symbol::Assign)?;
    let next = mark(tokens, next, Symbol::LeftParen)?;
    let (reject, next) = min_typ_max(tokens, next)?;
    let (error, next) = optional_error(tokens, next)?;
    let next = mark(tokens, next, Symbol::RightParen)?;
    Ok((
        Specparam::PulseLimits {
            name,
            reject,
            error,
        },
        next,
    ))
}

/// A specparam in a list.
pub struct SpecparamPart;

impl<'a> ListPart<'a> for SpecparamPart {
    type Value = Specparam<'a>;

    ghost use Rattle.vl_tree.specs.Tree.{Specparam as TreeSeen};
    ghost use Rattle.vl_tree.specs.Amounts as amounts;
    ghost use Rattle.vl_tree.specs.Seen.{view_specparam};

    ghost Tree = { TreeSeen };

    ghost rule = { amounts.specparam };

    ghost view = { view_specparam };

    fn begins(tokens: &[Token<'a>], at: usize) -> bool {
        is_name(tokens, at) || is_pulse_name(tokens, at)
    }

    fn read(
        _: Global,
        tokens: &[Token<'a>],
        at: usize,
    ) -> Result<(Specparam<'a>, usize), ReadFault> {
        specparam(tokens, at)
    }
}
