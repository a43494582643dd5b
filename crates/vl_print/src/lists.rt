// Parts that are printed one behind the other.
ghost use Rattle.std.specs.Prelude.{◌≡◌, map, OnOk, option_map};
ghost use Rattle.vl_token.specs.Seen.{lexeme};
ghost use Rattle.vl_print.specs.Printing.{Tokens, behind_comma, put_listed, put_many, put_optional};

use crate::tokens::symbol;
use sg_text::NoMemory;
use vl_token::{Symbol, Token};

/// A part of a tree, and the tokens that are put for it.
pub trait Print<'a> {
    ghost Tree: { Type 0 };

    ghost view: { Self → Tree };

    ghost tokens: { Tree → Tokens → Tokens };

    fn print(&self, out: &mut Vec<Token<'a>>) -> Result<(), NoMemory>
        ensures { OnOk result (map lexeme out.new.items ≡ tokens (view self.now) (map lexeme out.old.items)) };
}

pub fn print_many<'a, P: Print<'a>>(out: &mut Vec<Token<'a>>, parts: &[P]) -> Result<(), NoMemory>
    ensures { OnOk result (map lexeme out.new.items ≡ put_many P.tokens (map P.view parts.now) (map lexeme out.old.items)) }
{
    let mut rest = parts;
    'more: while let [part, tail @ ..] = rest {
        part.print(out)?;
        rest = tail;
    }
    Ok(())
}

/// Each behind a comma.
pub fn print_behind_commas<'a, P: Print<'a>>(
    out: &mut Vec<Token<'a>>,
    parts: &[P],
) -> Result<(), NoMemory>
    ensures { OnOk result (map lexeme out.new.items ≡ put_many (behind_comma P.tokens) (map P.view parts.now) (map lexeme out.old.items)) }
{
    let mut rest = parts;
    'more: while let [part, tail @ ..] = rest {
        symbol(out, Symbol::Comma)?;
        part.print(out)?;
        rest = tail;
    }
    Ok(())
}

/// With commas between.
pub fn print_listed<'a, P: Print<'a>>(out: &mut Vec<Token<'a>>, parts: &[P]) -> Result<(), NoMemory>
    ensures { OnOk result (map lexeme out.new.items ≡ put_listed P.tokens (map P.view parts.now) (map lexeme out.old.items)) }
{
    match parts {
        [] => Ok(()),
        [first, rest @ ..] => {
            first.print(out)?;
            print_behind_commas(out, rest)
        }
    }
}

pub fn print_optional<'a, P: Print<'a>>(
    out: &mut Vec<Token<'a>>,
    part: &Option<P>,
) -> Result<(), NoMemory>
    ensures { OnOk result (map lexeme out.new.items ≡ put_optional P.tokens (option_map P.view part.now) (map lexeme out.old.items)) }
{
    match part {
        None => Ok(()),
        Some(part) => part.print(out),
    }
}
