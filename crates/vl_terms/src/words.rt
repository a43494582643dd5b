// The word of a condition that a token is alone.
ghost use Rattle.std.specs.Prelude.{◌≡◌, Some, None, IfOk, map, if◌then◌else◌};
ghost use Rattle.std.specs.Option.{option_map};
ghost use Rattle.cond_expr.specs.WordReading.{IsWordAlone};
ghost use Rattle.cond_expr.specs.declared.tokens.Tok.TheVariants as tok;
ghost use Rattle.sg_time.specs.Seen.{number as seen_number};
ghost use Rattle.vl_token.specs.Seen.{lexeme, meaning};
ghost use Rattle.vl_token.specs.Tokens.{name_token, number_token};
ghost use Rattle.vl_tree.specs.Conditions.{vocabulary, word_of_symbol};
ghost use Rattle.vl_tree.specs.Seen.{view_word};
ghost use Rattle.vl_terms.specs.Words.{maybe_seen, single_bit, word_alone};
ghost use Rattle.std.specs.Prelude.{true};

use crate::tokens::token_at;
use cond_expr::{Op, Tok};
use sg_logic::Value;
use sg_text::NoMemory;
use sg_time::Decimal;
use std::alloc::Global;
use vl_token::{Symbol, Token, TokenKind, unsized_bits};
use vl_tree::{Word, is_pulse_text};

/// A name, unless it is one of pulse limits.
fn name_word(text: &[u8]) -> Option<Tok<&[u8]>>
    ensures { maybe_seen result ≡ word_alone (name_token text.now) }
{
    if is_pulse_text(text) {
        return None;
    }
    Some(Tok::Name(text))
}

/// An operator or a parenthesis.
fn symbol_word<'a>(symbol: Symbol) -> Option<Tok<&'a [u8]>>
    ensures { maybe_seen result ≡ word_of_symbol symbol }
{
    match symbol {
        Symbol::Tilde => Some(Tok::Op(Op::Tilde)),
        Symbol::Bang => Some(Tok::Op(Op::Bang)),
        Symbol::And => Some(Tok::Op(Op::And)),
        Symbol::Or => Some(Tok::Op(Op::Or)),
        Symbol::Xor => Some(Tok::Op(Op::Xor)),
        Symbol::Equal => Some(Tok::Op(Op::Equal)),
        Symbol::Unequal => Some(Tok::Op(Op::Unequal)),
        Symbol::CaseEqual => Some(Tok::Op(Op::CaseEqual)),
        Symbol::CaseUnequal => Some(Tok::Op(Op::CaseUnequal)),
        Symbol::TildeXor => Some(Tok::Op(Op::TildeXor)),
        Symbol::XorTilde => Some(Tok::Op(Op::XorTilde)),
        Symbol::AndAnd => Some(Tok::Op(Op::AndAnd)),
        Symbol::OrOr => Some(Tok::Op(Op::OrOr)),
        Symbol::LeftParen => Some(Tok::Left),
        Symbol::RightParen => Some(Tok::Right),
        _ => None,
    }
}

/// 0 or 1.
fn number_word<'a>(value: Decimal) -> Option<Tok<&'a [u8]>>
    ensures { maybe_seen result ≡ word_alone (number_token (seen_number value) true) }
{
    if value.digits == 0 {
        return Some(Tok::Const(Value::Zero));
    }
    if value.digits == 1 {
        return Some(Tok::Const(Value::One));
    }
    None
}

/// The only bit of a constant.
fn bit_word<'a>(bits: &[Value]) -> Option<Tok<&'a [u8]>>
    ensures { maybe_seen result ≡ option_map (λ v. tok.Const v) (single_bit bits.now) }
{
    match bits {
        [bit] => Some(Tok::Const(*bit)),
        _ => None,
    }
}

/// The word that a token is.
#[tactic(auto, using(crate::proofs::WordOfToken::symbol_alone, crate::proofs::WordOfToken::sized_alone, crate::proofs::WordOfToken::unsized_alone))]
fn word_of<'a>(alloc: Global, kind: TokenKind<'a>) -> Result<Option<Tok<&'a [u8]>>, NoMemory>
    ensures { IfOk result (λ word. maybe_seen word ≡ word_alone (meaning kind.entry)) }
{
    match kind {
        TokenKind::Name(text) => Ok(name_word(text)),
        TokenKind::Symbol(symbol) => Ok(symbol_word(symbol)),
        TokenKind::Number { value, whole: true } => Ok(number_word(value)),
        TokenKind::Sized(constant) => {
            let bits = constant.bits(alloc)?;
            Ok(bit_word(&bits))
        }
        TokenKind::Unsized { base, digits } => {
            let bits = unsized_bits(alloc, base, digits)?;
            Ok(bit_word(&bits))
        }
        _ => Ok(None),
    }
}

/// The word that the token there is alone.
pub fn word_alone<'a>(
    alloc: Global,
    tokens: &[Token<'a>],
    at: usize,
) -> Result<Option<Word<'a>>, NoMemory>
    ensures { IsWordAlone vocabulary view_word (map lexeme tokens.now) at result }
{
    let Some(token) = token_at(tokens, at) else {
        return Ok(None);
    };
    match word_of(alloc, token.kind)? {
        Some(word) => Ok(Some(Word {
            place: token.place,
            token: word,
        })),
        None => Ok(None),
    }
}
