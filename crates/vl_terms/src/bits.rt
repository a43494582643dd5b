// The reader of the value that a primitive begins with.
ghost use Rattle.std.specs.Prelude.{◌≡◌, map, Some, None, IfOk};
ghost use Rattle.grammar.specs.Reading.{Gives};
ghost use Rattle.sg_logic.specs.declared.values.Value.TheVariants.{Zero, One, X};
ghost use Rattle.vl_token.specs.Constants.{sized_bits};
ghost use Rattle.vl_token.specs.Seen.{lexeme};
ghost use Rattle.vl_tree.specs.Primitives as primitives;
ghost use Rattle.vl_terms.specs.Bits.{initial_bit};

use crate::tokens::token_at;
use grammar::ReadFault;
use sg_logic::Value;
use sg_text::NoMemory;
use std::alloc::Global;
use vl_token::{Constant, Token, TokenKind};

/// The only bit of a list, unless it is z.
fn bit_of(bits: &[Value]) -> Option<Value>
    ensures { result ≡ initial_bit bits.now }
{
    match bits {
        [Value::Zero] => Some(Value::Zero),
        [Value::One] => Some(Value::One),
        [Value::X] => Some(Value::X),
        _ => None,
    }
}

/// The bit of a constant of one bit, unless it is z.
fn bit_of_constant(alloc: Global, constant: Constant<'_>) -> Result<Option<Value>, NoMemory>
    ensures { IfOk result (λ bit. bit ≡ initial_bit (sized_bits constant.entry.width constant.entry.base constant.entry.digits.now)) }
{
    if constant.width != 1 {
        return Ok(None);
    }
    let bits = constant.bits(alloc)?;
    Ok(bit_of(&bits))
}

/// `"0" | "1" | 1-bit sized, not z`
#[tactic(auto, unfolding(vl_tree::specs::Primitives::initial_value_parts))]
pub fn initial_value(
    alloc: Global,
    tokens: &[Token<'_>],
    at: usize,
) -> Result<(Value, usize), ReadFault>
    ensures { Gives (λ x. x) result (primitives.initial_value.read (map lexeme tokens.now) at) }
{
    match token_at(tokens, at) {
        Some(
            Token {
                kind: TokenKind::Number { value, whole: true },
                ..
            },
        ) if value.digits == 0 => Ok((Value::Zero, at + 1)),
        Some(
            Token {
                kind: TokenKind::Number { value, whole: true },
                ..
            },
        ) if value.digits == 1 => Ok((Value::One, at + 1)),
        Some(
            Token {
                kind: TokenKind::Sized(constant),
                ..
            },
        ) => match bit_of_constant(alloc, constant) {
            Ok(Some(bit)) => Ok((bit, at + 1)),
            Ok(None) => Err(ReadFault::At(at)),
            Err(NoMemory) => Err(ReadFault::Memory),
        },
        _ => Err(ReadFault::At(at)),
    }
}
