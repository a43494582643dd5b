// Why a netlist is refused at a token.
ghost use Rattle.std.specs.Prelude.{◌≡◌, IfOk, map, option_map, slice_get};
ghost use Rattle.vl_token.specs.Seen.{lexeme};
ghost use Rattle.vl_parse.specs.Opened.{Opened};
ghost use Rattle.vl_parse.specs.Parsed.{KindStands, fault_place, keyword_left_out, kind_seen, left_out};

use crate::parsing::ParseKind;
use sg_text::{Keyword, NoMemory, Place};
use std::alloc::Global;
use vl_specify::kind_at as kind_in_block;
use vl_terms::tokens::{is_word, token_at};
use vl_token::{Token, TokenKind};

fn keyword_left_out(word: Keyword) -> Option<&'static [u8]>
    ensures { option_map (λ w. w.now) result ≡ keyword_left_out word }
{
    match word {
        Keyword::Initial => Some(b"initial"),
        _ => None,
    }
}

/// The word there, if it is of a construct that is left out.
fn left_out<'a>(tokens: &[Token<'a>], at: usize) -> Option<&'a [u8]>
    ensures { option_map (λ w. w.now) result ≡ left_out (slice_get (map lexeme tokens.now) at) }
{
    match token_at(tokens, at) {
        Some(
            Token {
                kind: TokenKind::LeftOut(text),
                ..
            },
        ) => Some(text),
        Some(
            Token {
                kind: TokenKind::Word(word),
                ..
            },
        ) => keyword_left_out(word),
        _ => None,
    }
}

/// The position of the specify block that is open at a position, if one is.
fn open_block(tokens: &[Token<'_>], at: usize) -> Option<usize>
    ensures { Opened (map lexeme tokens.now) at result }
{
    let mut start = at;
    while start > 0 {
        start -= 1;
        if is_word(tokens, start, Keyword::Specify) {
            return Some(start);
        }
        if is_word(tokens, start, Keyword::EndSpecify) {
            return None;
        }
    }
    None
}

/// The kind of a fault at a token. Reads an open block again, and takes memory for it.
pub fn kind_at<'a>(
    alloc: Global,
    tokens: &[Token<'a>],
    at: usize,
) -> Result<ParseKind<'a>, NoMemory>
    ensures { IfOk result (λ kind. KindStands (map lexeme tokens.now) at (kind_seen kind)) }
{
    if let Some(word) = left_out(tokens, at) {
        return Ok(ParseKind::Unsupported(word));
    }
    let Some(start) = open_block(tokens, at) else {
        return Ok(ParseKind::Syntax);
    };
    let kind = kind_in_block(alloc, tokens, start, at)?;
    Ok(ParseKind::Specify(kind))
}

/// The place of a fault at a token, or behind the last one.
pub fn place_of_fault(tokens: &[Token<'_>], at: usize, end: Place) -> Place
    ensures { result ≡ fault_place end (slice_get (map lexeme tokens.now) at) }
{
    match token_at(tokens, at) {
        Some(token) => token.place,
        None => end,
    }
}
