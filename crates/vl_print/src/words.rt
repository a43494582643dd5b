// Terms, and the words of conditions.
ghost use Rattle.std.specs.Prelude.{◌≡◌, map, OnOk};
ghost use Rattle.cond_expr.specs.declared.tokens.Tok.TheVariants.{Const};
ghost use Rattle.vl_token.specs.Constants.{sized_bits};
ghost use Rattle.vl_token.specs.declared.bases.Base.TheVariants.{Binary};
ghost use Rattle.vl_token.specs.Seen.{lexeme};
ghost use Rattle.vl_token.specs.Tokens.{sized_token};
ghost use Rattle.vl_print.specs.Printing.{put_token};
ghost use Rattle.vl_print.specs.SpecifyPrinting.{put_tok, symbol_of_op};

use crate::expressions::int;
use crate::lists::{Print, print_optional};
use crate::tokens::{symbol, symbol_at, token};
use cond_expr::{Op, Tok};
use sg_logic::Value;
use sg_text::{NoMemory, Place};
use vl_token::{Base, Constant, Symbol, Token, TokenKind};
use vl_tree::{Term, Word};

impl<'a> Print<'a> for Term<'a> {
    ghost use Rattle.vl_tree.specs.Tree.{Term as TreeSeen};
    ghost use Rattle.vl_tree.specs.Seen.{view_term};
    ghost use Rattle.vl_print.specs.SpecifyPrinting.{put_term};

    ghost Tree = { TreeSeen };

    ghost view = { view_term };

    ghost tokens = { put_term };

    fn print(&self, out: &mut Vec<Token<'a>>) -> Result<(), NoMemory> {
        self.name.print(out)?;
        print_optional(out, &self.select)
    }
}

fn operator_symbol(op: Op) -> Symbol
    ensures { result ≡ symbol_of_op op }
{
    match op {
        Op::Tilde => Symbol::Tilde,
        Op::Bang => Symbol::Bang,
        Op::And => Symbol::And,
        Op::Or => Symbol::Or,
        Op::Xor => Symbol::Xor,
        Op::Equal => Symbol::Equal,
        Op::Unequal => Symbol::Unequal,
        Op::CaseEqual => Symbol::CaseEqual,
        Op::CaseUnequal => Symbol::CaseUnequal,
        Op::TildeXor => Symbol::TildeXor,
        Op::XorTilde => Symbol::XorTilde,
        Op::AndAnd => Symbol::AndAnd,
        Op::OrOr => Symbol::OrOr,
    }
}

/// A constant of one bit, with its width.
#[tactic(auto, unfolding(vl_token::specs::Constants::low_bits))]
fn print_bit(out: &mut Vec<Token<'_>>, value: Value, place: Place) -> Result<(), NoMemory>
    ensures { OnOk result (map lexeme out.new.items ≡ put_tok place (Const value) (map lexeme out.old.items)) }
{
    match value {
        Value::Zero => print_digits(out, b"0", place),
        Value::One => print_digits(out, b"1", place),
        Value::X => print_digits(out, b"x", place),
        Value::Z => print_digits(out, b"z", place),
    }
}

fn print_digits<'a>(
    out: &mut Vec<Token<'a>>,
    digits: &'a [u8],
    place: Place,
) -> Result<(), NoMemory>
    ensures { OnOk result (map lexeme out.new.items ≡ put_token (sized_token (sized_bits 1 Binary digits.entry.now)) place (map lexeme out.old.items)) }
{
    let constant = Constant {
        digits,
        width: 1,
        base: Base::Binary,
    };
    token(out, TokenKind::Sized(constant), place)
}

impl<'a> Print<'a> for Word<'a> {
    ghost use Rattle.vl_tree.specs.Tree.{Word as TreeSeen};
    ghost use Rattle.vl_tree.specs.Seen.{view_word};
    ghost use Rattle.vl_print.specs.SpecifyPrinting.{put_condition_word};

    ghost Tree = { TreeSeen };

    ghost view = { view_word };

    ghost tokens = { put_condition_word };

    fn print(&self, out: &mut Vec<Token<'a>>) -> Result<(), NoMemory> {
        match &self.token {
            Tok::Name(text) => token(out, TokenKind::Name(*text), self.place),
            Tok::Index(index) => {
                symbol_at(out, Symbol::LeftBracket, self.place)?;
                int(out, *index)?;
                symbol(out, Symbol::RightBracket)
            }
            Tok::Const(value) => print_bit(out, *value, self.place),
            Tok::Op(op) => symbol_at(out, operator_symbol(*op), self.place),
            Tok::Left => symbol_at(out, Symbol::LeftParen, self.place),
            Tok::Right => symbol_at(out, Symbol::RightParen, self.place),
        }
    }
}
