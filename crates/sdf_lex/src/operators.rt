// The operators that conditions are written with.
ghost use Rattle.std.specs.Prelude.{◌≡◌, ◌≤◌, length, map};
ghost use Rattle.sdf_lex.specs.Operators.{operator_in, operator_of, is_operator, row};
ghost use Rattle.sdf_lex.specs.PieceBridge.{symbol_len};

use cond_expr::Op;

// In the order of the definition.
const OPERATORS: [(&str, Op); 13] = [
    ("~", Op::Tilde),
    ("!", Op::Bang),
    ("&", Op::And),
    ("|", Op::Or),
    ("^", Op::Xor),
    ("==", Op::Equal),
    ("!=", Op::Unequal),
    ("===", Op::CaseEqual),
    ("!==", Op::CaseUnequal),
    ("~^", Op::TildeXor),
    ("^~", Op::XorTilde),
    ("&&", Op::AndAnd),
    ("||", Op::OrOr),
];

// The operator of the first of the rows with these bytes.
fn operator_in(rows: &[(&str, Op)], bytes: &[u8]) -> Option<Op>
    ensures { result ≡ operator_in bytes.now (map row rows.now) }
{
    let mut rest = rows;
    while let [(spelling, operator), tail @ ..] = rest {
        if spelling.as_bytes() == bytes {
            return Some(*operator);
        }
        rest = tail;
    }
    None
}

// The operator that is spelled so.
pub fn operator_of(bytes: &[u8]) -> Option<Op>
    ensures { result ≡ operator_of bytes.now }
{
    operator_in(&OPERATORS, bytes)
}

fn is_operator(bytes: &[u8]) -> bool
    ensures { result ≡ is_operator bytes.now }
{
    operator_of(bytes).is_some()
}

// How many bytes the longest operator at the front has, 1 where there is none.
pub fn symbol_len(text: &[u8]) -> usize
    ensures { result ≡ symbol_len text.now }
{
    if text.len() >= 3 && is_operator(&text[..3]) {
        3
    } else if text.len() >= 2 && is_operator(&text[..2]) {
        2
    } else {
        1
    }
}
