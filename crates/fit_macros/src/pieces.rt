// What a text begins with: pieces, words, lines.
ghost use Rattle.std.specs.Prelude.{◌≡◌, ◌<◌, ◌-◌, length};

use vl_pieces::{Class, Mode, first_piece, is_blank};

const LINE_FEED: u8 = b'\n';

const RETURN: u8 = b'\r';

// No text that is read is longer.
const MOST: usize = 1 << 60;

/// The first bytes of a text, and what is behind them.
pub fn cut(text: &[u8], size: usize) -> (&[u8], &[u8])
    ensures { length result.1.now ≡ length text.now - size }
{
    text.split_at(size.min(text.len()))
}

/// What is behind a first part, or behind the first byte where that is none.
pub fn behind(text: &[u8], size: usize) -> &[u8]
    ensures { 0 < length text.now → length result.now < length text.now }
{
    cut(text, size.max(1)).1
}

/// The first piece of a text, and its class. The same in tables and edge lists, since no blank is put between pieces
/// that touch.
pub fn front(text: &[u8]) -> (Class, &[u8]) {
    if text.is_empty() || text.len() > MOST {
        return (Class::Other, text);
    }
    let (class, size) = first_piece(Mode::Plain, text);
    (class, cut(text, size).0)
}

/// What is behind blanks at the front.
pub fn behind_blanks(text: &[u8]) -> &[u8] {
    cut(text, text.iter().take_while(|b| is_blank(**b)).count()).1
}

/// How many line feeds a text has.
pub fn feeds(text: &[u8]) -> usize {
    text.iter().filter(|b| **b == LINE_FEED).count()
}

/// Whether a piece parts others without being one: blanks, comments and attributes.
pub fn is_gap(class: Class) -> bool {
    class == Class::Gap || class == Class::Attribute
}

/// The size of the gaps at the front.
pub fn gap_size(text: &[u8]) -> usize {
    let mut rest = text;
    while let [_, ..] = rest {
        let (class, piece) = front(rest);
        if !is_gap(class) {
            break;
        }
        rest = behind(rest, piece.len());
    }
    text.len().saturating_sub(rest.len())
}

/// The name behind gaps at the front, and the size with them.
pub fn name_at(text: &[u8]) -> Option<(&[u8], usize)> {
    let gaps = gap_size(text);
    match front(cut(text, gaps).1) {
        (Class::Name, name) => Some((name, gaps.saturating_add(name.len()))),
        _ => None,
    }
}

/// How many bytes stand before the next end of a line.
pub fn line_size(text: &[u8]) -> usize {
    text.iter()
        .take_while(|b| **b != LINE_FEED && **b != RETURN)
        .count()
}

/// The size of so many words of a line, with the gaps before them.
pub fn words_size(text: &[u8], words: usize) -> usize {
    let line = cut(text, line_size(text)).0;
    let mut rest = line;
    for _ in 0..words {
        rest = behind_word(rest);
    }
    line.len().saturating_sub(rest.len())
}

fn behind_word(text: &[u8]) -> &[u8] {
    let word = cut(text, gap_size(text)).1;
    cut(word, front(word).1.len()).1
}
