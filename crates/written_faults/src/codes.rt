// Tokens of conditions as numbers.
ghost use Rattle.std.specs.Prelude.{◌≡◌, ◌++◌, ◌∷◌, [], IfOk, OnOk};
ghost use Rattle.written_faults.specs.Codes.{index_tag, operator_number, token_code, tokens_code, value_number, word_code};

use cond_expr::{Op, Tok};
use sg_logic::Value;
use sg_text::{NoMemory, Text};
use std::alloc::Global;

fn value_number(value: Value) -> u64
    ensures { result ≡ value_number value }
{
    match value {
        Value::Zero => 0,
        Value::One => 1,
        Value::X => 2,
        Value::Z => 3,
    }
}

fn operator_number(operator: Op) -> u64
    ensures { result ≡ operator_number operator }
{
    match operator {
        Op::Tilde => 0,
        Op::Bang => 1,
        Op::And => 2,
        Op::Or => 3,
        Op::Xor => 4,
        Op::Equal => 5,
        Op::Unequal => 6,
        Op::CaseEqual => 7,
        Op::CaseUnequal => 8,
        Op::TildeXor => 9,
        Op::XorTilde => 10,
        Op::AndAnd => 11,
        Op::OrOr => 12,
    }
}

// A tag, and a number behind it.
fn push_number(code: &mut Vec<u64>, tag: u64, number: u64) -> Result<(), NoMemory>
    ensures { OnOk result (code.new.items ≡ code.old.items ++ word_code tag (number ∷ [])) }
{
    code.push(tag)?;
    code.push(1)?;
    code.push(number)?;
    Ok(())
}

fn push_parenthesis(code: &mut Vec<u64>, tag: u64) -> Result<(), NoMemory>
    ensures { OnOk result (code.new.items ≡ code.old.items ++ word_code tag []) }
{
    code.push(tag)?;
    code.push(0)?;
    Ok(())
}

fn push_name(code: &mut Vec<u64>, name: &[u8]) -> Result<(), NoMemory>
    ensures { OnOk result (code.new.items ≡ code.old.items ++ word_code 0 name.now) }
{
    code.push(0)?;
    code.push(name.len() as u64)?;
    for byte in name {
        code.push(u64::from(*byte))?;
    }
    Ok(())
}

// An index below 0 has a tag of its own.
fn index_tag(index: i64) -> u64
    ensures { result ≡ index_tag index }
{
    if index < 0 { 2 } else { 1 }
}

fn push_token(code: &mut Vec<u64>, token: &Tok<Text>) -> Result<(), NoMemory>
    ensures { OnOk result (code.new.items ≡ code.old.items ++ token_code token.now) }
{
    match token {
        Tok::Name(name) => push_name(code, name.bytes()),
        Tok::Index(index) => push_number(code, index_tag(*index), index.unsigned_abs()),
        Tok::Const(value) => push_number(code, 3, value_number(*value)),
        Tok::Op(operator) => push_number(code, 4, operator_number(*operator)),
        Tok::Left => push_parenthesis(code, 5),
        Tok::Right => push_parenthesis(code, 6),
    }
}

/// Numbers that spell tokens, other tokens by other numbers.
pub fn code_of(alloc: Global, tokens: &[Tok<Text>]) -> Result<Vec<u64>, NoMemory>
    ensures { IfOk result (λ code. code.items ≡ tokens_code tokens.now) }
{
    let mut code = Vec::new(alloc);
    for token in tokens {
        push_token(&mut code, token)?;
    }
    Ok(code)
}
