// Single tokens at the end of others, and names.
ghost use Rattle.std.specs.Prelude.{◌≡◌, map, OnOk, option_map};
ghost use Rattle.vl_token.specs.Seen.{lexeme, meaning};
ghost use Rattle.vl_print.specs.Printing.{byte_at, mark_at, put_byte, put_mark, put_name, put_optional, put_token, put_word, word_at};
ghost use Rattle.vl_tree.specs.Seen.{view_name};

use crate::lists::Print;
use sg_text::{Keyword, NoMemory, Place};
use vl_token::{Symbol, Token, TokenKind};
use vl_tree::Name;

// Where tokens stand of which no tree has the place.
pub const NOWHERE: Place = Place { file: 0, byte: 0 };

pub fn token<'a>(
    out: &mut Vec<Token<'a>>,
    kind: TokenKind<'a>,
    place: Place,
) -> Result<(), NoMemory>
    ensures { OnOk result (map lexeme out.new.items ≡ put_token (meaning kind.entry) place (map lexeme out.old.items)) }
{
    out.push(Token { kind, place })?;
    Ok(())
}

pub fn symbol_at(out: &mut Vec<Token<'_>>, symbol: Symbol, place: Place) -> Result<(), NoMemory>
    ensures { OnOk result (map lexeme out.new.items ≡ mark_at symbol place (map lexeme out.old.items)) }
{
    token(out, TokenKind::Symbol(symbol), place)
}

pub fn symbol(out: &mut Vec<Token<'_>>, symbol: Symbol) -> Result<(), NoMemory>
    ensures { OnOk result (map lexeme out.new.items ≡ put_mark symbol (map lexeme out.old.items)) }
{
    symbol_at(out, symbol, NOWHERE)
}

pub fn keyword_at(out: &mut Vec<Token<'_>>, word: Keyword, place: Place) -> Result<(), NoMemory>
    ensures { OnOk result (map lexeme out.new.items ≡ word_at word place (map lexeme out.old.items)) }
{
    token(out, TokenKind::Word(word), place)
}

pub fn keyword(out: &mut Vec<Token<'_>>, word: Keyword) -> Result<(), NoMemory>
    ensures { OnOk result (map lexeme out.new.items ≡ put_word word (map lexeme out.old.items)) }
{
    keyword_at(out, word, NOWHERE)
}

pub fn table_byte_at(out: &mut Vec<Token<'_>>, byte: u8, place: Place) -> Result<(), NoMemory>
    ensures { OnOk result (map lexeme out.new.items ≡ byte_at byte place (map lexeme out.old.items)) }
{
    token(out, TokenKind::Byte(byte), place)
}

pub fn table_byte(out: &mut Vec<Token<'_>>, byte: u8) -> Result<(), NoMemory>
    ensures { OnOk result (map lexeme out.new.items ≡ put_byte byte (map lexeme out.old.items)) }
{
    table_byte_at(out, byte, NOWHERE)
}

impl<'a> Print<'a> for Name<'a> {
    ghost use Rattle.vl_tree.specs.Tree.{Named};
    ghost use Rattle.vl_tree.specs.Seen.{view_name};
    ghost use Rattle.vl_print.specs.Printing.{put_name};

    ghost Tree = { Named };

    ghost view = { view_name };

    ghost tokens = { put_name };

    fn print(&self, out: &mut Vec<Token<'a>>) -> Result<(), NoMemory> {
        token(out, TokenKind::Name(self.text), self.place)
    }
}
