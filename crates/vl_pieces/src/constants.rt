// What sized constants are as tokens.
ghost use Rattle.std.specs.Prelude.{◌≡◌, ◌≤◌, ◌^◌, Option, Some, None};
ghost use Rattle.std.specs.List.{list_all};
ghost use Rattle.vl_token.specs.Constants.{is_digit_of, own_bits};
ghost use Rattle.vl_token.specs.Seen.{meaning};
ghost use Rattle.vl_token.specs.Tokens.{other_token};
ghost use Rattle.vl_pieces.specs.Sized.{width_in, width_of, behind_width, sized_of};
ghost use Rattle.vl_pieces.specs.Meanings.{with_bits, sized_meaning};

use crate::numbers::decimal_len;
use vl_token::{Base, Constant, TokenKind, number_of};

const WIDEST: u64 = 65536;

fn width_in(widest: u64, number: u64) -> Option<Option<u32>>
    requires { widest ≤ 2 ^ 31 }
    ensures { result ≡ width_in widest number }
{
    if number == 0 || number > widest {
        return None;
    }
    Some(Some(number as u32))
}

// The width that the digits spell, if they spell a good one or none.
fn width_of(digits: &[u8]) -> Option<Option<u32>>
    ensures { result ≡ width_of digits.now }
{
    if digits.is_empty() {
        return Some(None);
    }
    width_in(WIDEST, number_of(digits)?)
}

// The constant of a width, a base and digits, if both numbers are small enough.
fn with_bits<'a>(
    bytes: &'a [u8],
    width: Option<Option<u32>>,
    base: Base,
    digits: &'a [u8],
) -> TokenKind<'a>
    ensures { meaning result ≡ with_bits bytes.now width (own_bits base digits.now) }
{
    let Some(width) = width else {
        return TokenKind::Other(bytes);
    };
    if !base.has_bits(digits) {
        return TokenKind::Other(bytes);
    }
    match width {
        Some(width) => TokenKind::Sized(Constant {
            digits,
            width,
            base,
        }),
        None => TokenKind::Unsized { base, digits },
    }
}

fn are_digits_of(base: Base, digits: &[u8]) -> bool
    ensures { result ≡ list_all (is_digit_of base) digits.now }
{
    digits.iter().all(|digit| base.has_digit(*digit))
}

// The constant whose width and whose apostrophe and digits are these parts of the bytes.
fn from_parts<'a>(bytes: &'a [u8], width: &'a [u8], rest: &'a [u8]) -> TokenKind<'a>
    ensures { meaning result ≡ sized_meaning bytes.now (behind_width width.now rest.now) }
{
    let [b'\'', letter, digits @ ..] = rest else {
        return TokenKind::Other(bytes);
    };
    let Some(base) = Base::of_letter(*letter) else {
        return TokenKind::Other(bytes);
    };
    if digits.is_empty() || !are_digits_of(base, digits) {
        return TokenKind::Other(bytes);
    }
    with_bits(bytes, width_of(width), base, digits)
}

// What a sized constant is.
pub fn sized_kind(bytes: &[u8]) -> TokenKind<'_>
    ensures { meaning result ≡ sized_meaning bytes.now (sized_of bytes.now) }
{
    let width = decimal_len(bytes);
    from_parts(bytes, &bytes[..width], &bytes[width..])
}
