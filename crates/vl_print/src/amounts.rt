// Numbers of specify blocks.
ghost use Rattle.std.specs.Prelude.{◌≡◌, map, OnOk, option_map};
ghost use Rattle.vl_token.specs.Seen.{lexeme};
ghost use Rattle.vl_print.specs.Printing.{behind_comma, put_mtm, put_optional};
ghost use Rattle.vl_tree.specs.Seen.{view_amounts, view_limit, view_mtm};
ghost use Rattle.vl_print.specs.SpecifyPrinting.{put_delays, put_next_limit, put_sign};

use crate::lists::{Print, print_listed};
use crate::tokens::{symbol, token};
use sg_text::NoMemory;
use vl_token::{Symbol, Token, TokenKind};
use vl_tree::{Amount, Amounts, Limit, MinTypMax, SignedAmount, Specparam};

impl<'a> Print<'a> for Amount<'a> {
    ghost use Rattle.vl_tree.specs.Tree.{Amount as TreeSeen};
    ghost use Rattle.vl_tree.specs.Seen.{view_amount};
    ghost use Rattle.vl_print.specs.SpecifyPrinting.{put_amount};

    ghost Tree = { TreeSeen };

    ghost view = { view_amount };

    ghost tokens = { put_amount };

    fn print(&self, out: &mut Vec<Token<'a>>) -> Result<(), NoMemory> {
        match self {
            Amount::Number { place, value } => {
                let number = TokenKind::Number {
                    value: *value,
                    whole: false,
                };
                token(out, number, *place)
            }
            Amount::Parameter(name) => name.print(out),
        }
    }
}

impl<'a> Print<'a> for Amounts<'a> {
    ghost use Rattle.vl_tree.specs.Tree.{Amounts as TreeSeen};
    ghost use Rattle.vl_tree.specs.Seen.{view_amounts};
    ghost use Rattle.vl_print.specs.SpecifyPrinting.{put_amounts};

    ghost Tree = { TreeSeen };

    ghost view = { view_amounts };

    ghost tokens = { put_amounts };

    fn print(&self, out: &mut Vec<Token<'a>>) -> Result<(), NoMemory> {
        match self {
            Amounts::One(amount) => amount.print(out),
            Amounts::Three { min, typ, max } => {
                min.print(out)?;
                symbol(out, Symbol::Colon)?;
                typ.print(out)?;
                symbol(out, Symbol::Colon)?;
                max.print(out)
            }
        }
    }
}

/// `"(" amounts { "," amounts } ")"`
pub fn print_delays<'a>(out: &mut Vec<Token<'a>>, delays: &[Amounts<'a>]) -> Result<(), NoMemory>
    ensures { OnOk result (map lexeme out.new.items ≡ put_delays (map view_amounts delays.now) (map lexeme out.old.items)) }
{
    symbol(out, Symbol::LeftParen)?;
    print_listed(out, delays)?;
    symbol(out, Symbol::RightParen)
}

fn print_sign(out: &mut Vec<Token<'_>>, negative: bool) -> Result<(), NoMemory>
    ensures { OnOk result (map lexeme out.new.items ≡ put_sign negative (map lexeme out.old.items)) }
{
    if negative {
        return symbol(out, Symbol::Minus);
    }
    Ok(())
}

impl<'a> Print<'a> for SignedAmount<'a> {
    ghost use Rattle.vl_tree.specs.Tree.{SignedAmount as TreeSeen};
    ghost use Rattle.vl_tree.specs.Seen.{view_signed};
    ghost use Rattle.vl_print.specs.SpecifyPrinting.{put_signed};

    ghost Tree = { TreeSeen };

    ghost view = { view_signed };

    ghost tokens = { put_signed };

    fn print(&self, out: &mut Vec<Token<'a>>) -> Result<(), NoMemory> {
        print_sign(out, self.negative)?;
        self.amount.print(out)
    }
}

impl<'a> Print<'a> for Limit<'a> {
    ghost use Rattle.vl_tree.specs.Tree.{Limit as TreeSeen};
    ghost use Rattle.vl_tree.specs.Seen.{view_limit};
    ghost use Rattle.vl_print.specs.SpecifyPrinting.{put_limit};

    ghost Tree = { TreeSeen };

    ghost view = { view_limit };

    ghost tokens = { put_limit };

    fn print(&self, out: &mut Vec<Token<'a>>) -> Result<(), NoMemory> {
        match self {
            Limit::One(amount) => amount.print(out),
            Limit::Three { min, typ, max } => {
                min.print(out)?;
                symbol(out, Symbol::Colon)?;
                typ.print(out)?;
                symbol(out, Symbol::Colon)?;
                max.print(out)
            }
        }
    }
}

/// `"," limit`
pub fn print_next_limit<'a>(out: &mut Vec<Token<'a>>, limit: &Limit<'a>) -> Result<(), NoMemory>
    ensures { OnOk result (map lexeme out.new.items ≡ put_next_limit (view_limit limit.now) (map lexeme out.old.items)) }
{
    symbol(out, Symbol::Comma)?;
    limit.print(out)
}

// `[ "," mtm ]`
fn print_error_limit(out: &mut Vec<Token<'_>>, error: &Option<MinTypMax>) -> Result<(), NoMemory>
    ensures { OnOk result (map lexeme out.new.items ≡ put_optional (behind_comma put_mtm) (option_map view_mtm error.now) (map lexeme out.old.items)) }
{
    match error {
        None => Ok(()),
        Some(limit) => {
            symbol(out, Symbol::Comma)?;
            limit.print(out)
        }
    }
}

impl<'a> Print<'a> for Specparam<'a> {
    ghost use Rattle.vl_tree.specs.Tree.{Specparam as TreeSeen};
    ghost use Rattle.vl_tree.specs.Seen.{view_specparam};
    ghost use Rattle.vl_print.specs.SpecifyPrinting.{put_specparam};

    ghost Tree = { TreeSeen };

    ghost view = { view_specparam };

    ghost tokens = { put_specparam };

    fn print(&self, out: &mut Vec<Token<'a>>) -> Result<(), NoMemory> {
        match self {
            Specparam::Value { name, value } => {
                name.print(out)?;
                symbol(out, Symbol::Assign)?;
                value.print(out)
            }
            Specparam::PulseLimits {
                name,
                reject,
                error,
            } => {
                name.print(out)?;
                symbol(out, Symbol::Assign)?;
                symbol(out, Symbol::LeftParen)?;
                reject.print(out)?;
                print_error_limit(out, error)?;
                symbol(out, Symbol::RightParen)
            }
        }
    }
}
