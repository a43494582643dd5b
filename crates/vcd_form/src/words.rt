// The words of a text, one after another.
ghost use Rattle.std.specs.Prelude.{◌≡◌, ◌==◌, ◌||◌, ◌≤◌, length, not};
ghost use Rattle.std.specs.List.{prefix_len};
ghost use Rattle.vcd_form.specs.Words.{byte_of, is_blank};
ghost use Rattle.vcd_form.specs.Places.{read_at, IsBetween};
ghost use Rattle.vcd_form.specs.Reading.{WordAt};

use crate::word::Word;

fn is_blank(byte: u8) -> bool
    ensures { result ≡ is_blank byte }
{
    byte == b' ' || byte == b'\t' || byte == b'\n' || byte == b'\r'
}

// How many blanks a text begins with.
fn blank_len(text: &[u8]) -> usize
    ensures size { result ≡ prefix_len is_blank text.now }
    ensures within { result ≤ length text.now }
{
    text.iter().take_while(|b| is_blank(**b)).count()
}

// How many bytes stand before the first blank.
fn word_len(text: &[u8]) -> usize
    ensures size { result ≡ prefix_len (λ b. not (is_blank b)) text.now }
    ensures within { result ≤ length text.now }
{
    text.iter().take_while(|b| !is_blank(**b)).count()
}

/// The word behind a place, and the place behind it.
pub fn word_from<'a>(text: &'a [u8], at: usize) -> Option<(Word<'a>, usize)>
    requires { IsBetween text.now at }
    ensures { WordAt text.now (read_at text.now at) result }
{
    let byte = at + blank_len(&text[at..]);
    let behind = byte + word_len(&text[byte..]);
    if behind == byte {
        return None;
    }
    let bytes = &text[byte..behind];
    Some((Word { byte, bytes }, behind))
}

/// Where the word behind a place stands, or the end of the text.
#[tactic(auto, using(crate::proofs::PlaceLaws::next_byte))]
pub fn byte_from(text: &[u8], at: usize) -> usize
    requires { IsBetween text.now at }
    ensures { result ≡ byte_of text.now (read_at text.now at) }
{
    at + blank_len(&text[at..])
}
