// The text of conditions.
ghost use Rattle.std.specs.Prelude.{◌≡◌, ◌++◌, ◌∷◌, [], codes, OnOk};
ghost use Rattle.written_model.specs.Text.{gap, operator_text, token_text, value_letter, words_behind, words_text};

use crate::words::{push_index, push_name};
use cond_expr::{Op, Tok};
use sg_logic::Value;
use sg_text::Text;
use std::alloc::AllocError;

fn letter_of(value: Value) -> u8
    ensures { result ≡ value_letter value }
{
    match value {
        Value::Zero => b'0',
        Value::One => b'1',
        Value::X => b'x',
        Value::Z => b'z',
    }
}

fn operator_word(operator: Op) -> &'static str
    ensures { result.now ≡ operator_text operator }
{
    match operator {
        Op::Tilde => "~",
        Op::Bang => "!",
        Op::And => "&",
        Op::Or => "|",
        Op::Xor => "^",
        Op::Equal => "==",
        Op::Unequal => "!=",
        Op::CaseEqual => "===",
        Op::CaseUnequal => "!==",
        Op::TildeXor => "~^",
        Op::XorTilde => "^~",
        Op::AndAnd => "&&",
        Op::OrOr => "||",
    }
}

fn push_constant(text: &mut Vec<u8>, value: Value) -> Result<(), AllocError>
    ensures { OnOk result (text.new.items ≡ text.old.items ++ (codes "1'b" ++ value_letter value ∷ [])) }
{
    text.extend_from_slice(b"1'b")?;
    text.push(letter_of(value))?;
    Ok(())
}

fn push_byte(text: &mut Vec<u8>, byte: u8) -> Result<(), AllocError>
    ensures { OnOk result (text.new.items ≡ text.old.items ++ byte ∷ []) }
{
    text.push(byte)?;
    Ok(())
}

fn push_token(text: &mut Vec<u8>, token: &Tok<Text>) -> Result<(), AllocError>
    ensures { OnOk result (text.new.items ≡ text.old.items ++ token_text token.now) }
{
    match token {
        Tok::Name(name) => push_name(text, name.bytes()),
        Tok::Index(index) => push_index(text, *index),
        Tok::Const(value) => push_constant(text, *value),
        Tok::Op(operator) => text.extend_from_slice(operator_word(*operator).as_bytes()),
        Tok::Left => push_byte(text, b'('),
        Tok::Right => push_byte(text, b')'),
    }
}

// A blank before a token that isn't an index.
fn push_gap(text: &mut Vec<u8>, token: &Tok<Text>) -> Result<(), AllocError>
    ensures { OnOk result (text.new.items ≡ text.old.items ++ gap token.now) }
{
    match token {
        Tok::Index(_) => Ok(()),
        _ => push_byte(text, b' '),
    }
}

fn push_behind(text: &mut Vec<u8>, tokens: &[Tok<Text>]) -> Result<(), AllocError>
    ensures { OnOk result (text.new.items ≡ text.old.items ++ words_behind tokens.now) }
{
    for token in tokens {
        push_gap(text, token)?;
        push_token(text, token)?;
    }
    Ok(())
}

/// Adds the words of a condition.
pub fn push_words(text: &mut Vec<u8>, tokens: &[Tok<Text>]) -> Result<(), AllocError>
    ensures { OnOk result (text.new.items ≡ text.old.items ++ words_text tokens.now) }
{
    match tokens {
        [] => Ok(()),
        [first, rest @ ..] => {
            push_token(text, first)?;
            push_behind(text, rest)
        }
    }
}
