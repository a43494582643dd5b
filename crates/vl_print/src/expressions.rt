// Expressions, ranges and delays.
ghost use Rattle.std.specs.Prelude.{◌≡◌, map, OnOk};
ghost use Rattle.sg_time.specs.Seen.{number};
ghost use Rattle.vl_token.specs.Seen.{lexeme};
ghost use Rattle.vl_print.specs.Printing.{comma_if, put_expression, put_int, put_number, put_range, put_select, put_value, put_whole};
ghost use Rattle.vl_tree.specs.Seen.{view_expression};

use crate::lists::{Print, print_listed, print_optional};
use crate::tokens::{NOWHERE, symbol, symbol_at, token};
use sg_text::NoMemory;
use sg_time::Decimal;
use vl_token::{Symbol, Token, TokenKind};
use vl_tree::{Delay, Expression, MinTypMax, Range, Select};

// One more than the numbers of 18 digits.
const NINETEEN_DIGITS: u64 = 1_000_000_000_000_000_000;

/// A number of at most 18 digits; 0 for others, which no tokens spell.
pub fn whole(out: &mut Vec<Token<'_>>, size: u64) -> Result<(), NoMemory>
    ensures { OnOk result (map lexeme out.new.items ≡ put_whole size (map lexeme out.old.items)) }
{
    let digits = if size < NINETEEN_DIGITS { size } else { 0 };
    let value = Decimal {
        digits,
        exponent: 0,
        negative: false,
    };
    token(out, TokenKind::Number { value, whole: true }, NOWHERE)
}

pub fn int(out: &mut Vec<Token<'_>>, value: i64) -> Result<(), NoMemory>
    ensures { OnOk result (map lexeme out.new.items ≡ put_int value (map lexeme out.old.items)) }
{
    if value < 0 {
        symbol(out, Symbol::Minus)?;
    }
    whole(out, value.unsigned_abs())
}

impl<'a> Print<'a> for Range {
    ghost use Rattle.vl_tree.specs.declared.names.Range.{Range as TreeSeen};
    ghost use Rattle.vl_print.specs.Printing.{put_range};

    ghost Tree = { TreeSeen };

    ghost view = { λ r. r };

    ghost tokens = { put_range };

    fn print(&self, out: &mut Vec<Token<'a>>) -> Result<(), NoMemory> {
        symbol_at(out, Symbol::LeftBracket, self.place)?;
        int(out, self.left)?;
        symbol(out, Symbol::Colon)?;
        int(out, self.right)?;
        symbol(out, Symbol::RightBracket)
    }
}

impl<'a> Print<'a> for Select {
    ghost use Rattle.vl_tree.specs.declared.expressions.Select.{Select as TreeSeen};
    ghost use Rattle.vl_print.specs.Printing.{put_select};

    ghost Tree = { TreeSeen };

    ghost view = { λ s. s };

    ghost tokens = { put_select };

    fn print(&self, out: &mut Vec<Token<'a>>) -> Result<(), NoMemory> {
        symbol(out, Symbol::LeftBracket)?;
        match self {
            Select::Bit(index) => {
                int(out, *index)?;
                symbol(out, Symbol::RightBracket)
            }
            Select::Part { left, right } => {
                int(out, *left)?;
                symbol(out, Symbol::Colon)?;
                int(out, *right)?;
                symbol(out, Symbol::RightBracket)
            }
        }
    }
}

// A comma, where one is wanted.
fn comma(out: &mut Vec<Token<'_>>, wanted: bool) -> Result<(), NoMemory>
    ensures { OnOk result (map lexeme out.new.items ≡ comma_if wanted (map lexeme out.old.items)) }
{
    if wanted {
        return symbol(out, Symbol::Comma);
    }
    Ok(())
}

fn print_expression<'a>(
    out: &mut Vec<Token<'a>>,
    expression: &Expression<'a>,
) -> Result<(), NoMemory>
    ensures { OnOk result (map lexeme out.new.items ≡ put_expression (view_expression expression.now) (map lexeme out.old.items)) }
{
    match expression {
        Expression::Signal { name, select } => {
            name.print(out)?;
            print_optional(out, select)
        }
        Expression::Sized { place, value } => token(out, TokenKind::Sized(*value), *place),
        Expression::Concatenation { place, parts } => {
            symbol_at(out, Symbol::LeftBrace, *place)?;
            let mut behind = false;
            for part in parts {
                comma(out, behind)?;
                print_expression(out, part)?;
                behind = true;
            }
            symbol(out, Symbol::RightBrace)
        }
    }
}

impl<'a> Print<'a> for Expression<'a> {
    ghost use Rattle.vl_tree.specs.Tree.{Expression as TreeSeen};
    ghost use Rattle.vl_tree.specs.Seen.{view_expression};
    ghost use Rattle.vl_print.specs.Printing.{put_expression};

    ghost Tree = { TreeSeen };

    ghost view = { view_expression };

    ghost tokens = { put_expression };

    fn print(&self, out: &mut Vec<Token<'a>>) -> Result<(), NoMemory> {
        print_expression(out, self)
    }
}

/// `"=" expression`
pub fn print_value<'a>(out: &mut Vec<Token<'a>>, value: &Expression<'a>) -> Result<(), NoMemory>
    ensures { OnOk result (map lexeme out.new.items ≡ put_value (view_expression value.now) (map lexeme out.old.items)) }
{
    symbol(out, Symbol::Assign)?;
    print_expression(out, value)
}

fn print_number(out: &mut Vec<Token<'_>>, value: Decimal) -> Result<(), NoMemory>
    ensures { OnOk result (map lexeme out.new.items ≡ put_number (number value) (map lexeme out.old.items)) }
{
    token(
        out,
        TokenKind::Number {
            value,
            whole: false,
        },
        NOWHERE,
    )
}

impl<'a> Print<'a> for MinTypMax {
    ghost use Rattle.vl_tree.specs.Tree.{MinTypMax as TreeSeen};
    ghost use Rattle.vl_tree.specs.Seen.{view_mtm};
    ghost use Rattle.vl_print.specs.Printing.{put_mtm};

    ghost Tree = { TreeSeen };

    ghost view = { view_mtm };

    ghost tokens = { put_mtm };

    fn print(&self, out: &mut Vec<Token<'a>>) -> Result<(), NoMemory> {
        match self {
            MinTypMax::One(value) => print_number(out, *value),
            MinTypMax::Three { min, typ, max } => {
                print_number(out, *min)?;
                symbol(out, Symbol::Colon)?;
                print_number(out, *typ)?;
                symbol(out, Symbol::Colon)?;
                print_number(out, *max)
            }
        }
    }
}

impl<'a> Print<'a> for Delay {
    ghost use Rattle.vl_tree.specs.Tree.{Delay as TreeSeen};
    ghost use Rattle.vl_tree.specs.Seen.{view_delay};
    ghost use Rattle.vl_print.specs.Printing.{put_delay};

    ghost Tree = { TreeSeen };

    ghost view = { view_delay };

    ghost tokens = { put_delay };

    fn print(&self, out: &mut Vec<Token<'a>>) -> Result<(), NoMemory> {
        symbol_at(out, Symbol::Hash, self.place)?;
        symbol(out, Symbol::LeftParen)?;
        print_listed(out, self.values.as_slice())?;
        symbol(out, Symbol::RightParen)
    }
}
