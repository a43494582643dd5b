// Items behind the header.
ghost use Rattle.std.specs.Prelude.{◌≡◌, drop, take, Some};
ghost use Rattle.vcd_form.specs.Places.{read_at, IsBetween};
ghost use Rattle.vcd_form.specs.Reading.{read_of, Goes, ItemRead, WordAt};
ghost use Rattle.vcd_form.specs.Rules as rules;
ghost use Rattle.vcd_form.specs.Seen.{item_seen};
ghost use Rattle.vcd_form.specs.Words.{words};
ghost use Rattle.vcd_form.specs.Written.{instant, value};

use crate::cursor::Words;
use crate::kinds::{WordKind, kind_of};
use crate::sections::remark_rest;
use crate::steps::placed_code_from;
use crate::word::Word;
use crate::words::{byte_from, word_from};
use crate::written::Item;

fn head_of(bytes: &[u8]) -> &[u8]
    ensures { result.now ≡ take 1 bytes.now }
{
    &bytes[..bytes.len().min(1)]
}

fn behind_first(bytes: &[u8]) -> &[u8]
    ensures { result.now ≡ drop 1 bytes.now }
{
    match bytes {
        [_, rest @ ..] => rest,
        [] => bytes,
    }
}

fn instant_of(word: Word<'_>) -> Item<'_>
    ensures { item_seen result ≡ instant word.entry.byte (rules.behind_first word.entry.bytes.now) }
{
    Item::Instant {
        byte: word.byte,
        digits: behind_first(word.bytes),
    }
}

fn scalar_of(word: Word<'_>) -> Item<'_>
    ensures { item_seen result ≡ value word.entry.byte word.entry.byte (rules.head_of word.entry.bytes.now) (rules.behind_first word.entry.bytes.now) }
{
    Item::Value {
        byte: word.byte,
        code_byte: word.byte,
        bits: head_of(word.bytes),
        code: behind_first(word.bytes),
    }
}

fn vector_of<'a>(word: Word<'a>, code: Word<'a>) -> Item<'a>
    ensures { item_seen result ≡ rules.vector_of ((word.entry.byte, word.entry.bytes.now), (code.entry.byte, code.entry.bytes.now)) }
{
    Item::Value {
        byte: word.byte,
        code_byte: code.byte,
        bits: behind_first(word.bytes),
        code: code.bytes,
    }
}

fn real_of<'a>(word: Word<'a>, code: Word<'a>) -> Item<'a>
    ensures { item_seen result ≡ rules.real_of ((word.entry.byte, word.entry.bytes.now), (code.entry.byte, code.entry.bytes.now)) }
{
    Item::Real {
        byte: word.byte,
        code_byte: code.byte,
        code: code.bytes,
    }
}

// The item that begins with a word.
#[tactic(auto, unfolding(crate::specs::Rules::item_parts, crate::specs::Rules::remark_parts))]
fn item_from<'a>(
    text: &'a [u8],
    at: usize,
    word: Word<'a>,
    next: usize,
) -> Result<(Item<'a>, usize), usize>
    requires place { IsBetween text.now at }
    requires word { WordAt text.now (read_at text.now at) (Some (word, next)) }
    ensures { Goes text.now (λ y. item_seen y.0) (λ y. y.1) result (rules.item.read (words text.now) (read_at text.now at)) }
{
    match kind_of(word.bytes) {
        WordKind::Time => Ok((instant_of(word), next)),
        WordKind::Comment => {
            let behind = remark_rest(text, next)?;
            Ok((Item::Nothing, behind))
        }
        WordKind::Dump | WordKind::End => Ok((Item::Nothing, next)),
        WordKind::Scalar => Ok((scalar_of(word), next)),
        WordKind::Vector => {
            let (code, behind) = placed_code_from(text, next)?;
            Ok((vector_of(word, code), behind))
        }
        WordKind::Real => {
            let (code, behind) = placed_code_from(text, next)?;
            Ok((real_of(word, code), behind))
        }
        _ => Err(at),
    }
}

/// The next item behind the header, none at the end of the text; or the byte of the failing word, which is the text's length at its end.
pub fn next_item<'a>(words: &mut Words<'a>) -> Result<Option<Item<'a>>, usize>
    ensures text { words.new.text.now ≡ words.old.text.now }
    ensures read { ItemRead words.old.text.now (read_of words.old) (read_of words.new) result }
{
    let text = words.text;
    let Some((word, next)) = word_from(text, words.at) else {
        return Ok(None);
    };
    match item_from(text, words.at, word, next) {
        Ok((item, behind)) => {
            words.at = behind;
            Ok(Some(item))
        }
        Err(place) => Err(byte_from(text, place)),
    }
}
