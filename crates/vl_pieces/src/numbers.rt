// Numbers and sized constants at the front of a text.
ghost use Rattle.std.specs.Prelude.{◌≡◌, ◌<◌, ◌≤◌, ◌+◌, ◌^◌, length, drop, Option};
ghost use Rattle.std.specs.List.{prefix_len};
ghost use Rattle.std.specs.Char.{is_ascii_digit};
ghost use Rattle.sg_time.specs.Spelling.{is_run_byte};
ghost use Rattle.sg_time.specs.Reading.{sign_at, run_len};
ghost use Rattle.vl_token.specs.Constants.{base_of, is_digit_of};
ghost use Rattle.vl_pieces.specs.NumberBridge.{digits_len, power_len, behind_run, number_len, digits_size, base_size, sized_len};

use vl_token::Base;

// What is behind a sign at the front, if there is one.
fn behind_sign(bytes: &[u8]) -> &[u8]
    ensures { result.now ≡ (sign_at bytes.now).1 }
{
    match bytes {
        [b'+' | b'-', rest @ ..] => rest,
        _ => bytes,
    }
}

// How many bytes at the front are a digit and then digits and `_`.
fn run_len(bytes: &[u8]) -> usize
    ensures size { result ≡ run_len bytes.now }
    ensures within { result ≤ length bytes.now }
{
    match bytes {
        [first, rest @ ..] if first.is_ascii_digit() => 1 + tail_len(rest),
        _ => 0,
    }
}

fn tail_len(bytes: &[u8]) -> usize
    ensures size { result ≡ prefix_len is_run_byte bytes.now }
    ensures within { result ≤ length bytes.now }
{
    bytes
        .iter()
        .take_while(|b| b.is_ascii_digit() || **b == b'_')
        .count()
}

// At most two digits.
fn digits_len(bytes: &[u8]) -> usize
    ensures size { result ≡ digits_len bytes.now }
    ensures within { result ≤ length bytes.now }
{
    match bytes {
        [a, rest @ ..] if a.is_ascii_digit() => match rest {
            [b, ..] if b.is_ascii_digit() => 2,
            _ => 1,
        },
        _ => 0,
    }
}

// The power of ten at the front, as far as it is whole.
fn power_len(bytes: &[u8]) -> usize
    ensures size { result ≡ power_len bytes.now }
    ensures within { result ≤ length bytes.now }
{
    match bytes {
        [b'e' | b'E', after @ ..] => {
            let digits = behind_sign(after);
            let n = digits_len(digits);
            if n == 0 {
                0
            } else {
                1 + (after.len() - digits.len()) + n
            }
        }
        _ => 0,
    }
}

fn behind_run(n: usize, bytes: &[u8]) -> usize
    requires { n + length bytes.now < 2 ^ 63 }
    ensures size { result ≡ behind_run n bytes.now }
    ensures within { result ≤ n + length bytes.now }
{
    match bytes {
        [] => n,
        [b'.', after @ ..] => {
            let k = run_len(after);
            if n + k == 0 {
                0
            } else {
                n + (1 + (k + power_len(&after[k..])))
            }
        }
        _ => { if n == 0 { 0 } else { n + power_len(bytes) } }
    }
}

// The longest number at the front, 0 where there is none.
#[tactic(auto, unfolding(crate::specs::NumberBridge::number_len))]
pub fn number_len(text: &[u8]) -> usize
    requires { length text.now < 2 ^ 63 }
    ensures size { result ≡ number_len text.now }
    ensures within { result ≤ length text.now }
{
    let n = run_len(text);
    behind_run(n, &text[n..])
}

// How many bytes at the front are decimal digits.
pub fn decimal_len(bytes: &[u8]) -> usize
    ensures size { result ≡ prefix_len is_ascii_digit bytes.now }
    ensures within { result ≤ length bytes.now }
{
    bytes.iter().take_while(|b| b.is_ascii_digit()).count()
}

fn digits_of(base: Base, bytes: &[u8]) -> usize
    ensures size { result ≡ prefix_len (is_digit_of base) bytes.now }
    ensures within { result ≤ length bytes.now }
{
    bytes.iter().take_while(|b| base.has_digit(**b)).count()
}

// How many digits of the base that a letter names are at the front.
fn digits_size(letter: u8, digits: &[u8]) -> usize
    ensures size { result ≡ digits_size (base_of letter) digits.now }
    ensures within { result ≤ length digits.now }
{
    match Base::of_letter(letter) {
        Some(base) => digits_of(base, digits),
        None => 0,
    }
}

fn base_size(width: usize, bytes: &[u8]) -> usize
    requires { width + length bytes.now < 2 ^ 63 }
    ensures size { result ≡ base_size width bytes.now }
    ensures within { result ≤ width + length bytes.now }
{
    match bytes {
        [b'\'', letter, digits @ ..] => {
            let size = digits_size(*letter, digits);
            if size == 0 { 0 } else { width + 2 + size }
        }
        _ => 0,
    }
}

// The longest sized constant at the front, 0 where there is none.
#[tactic(auto, unfolding(crate::specs::NumberBridge::sized_len))]
pub fn sized_len(text: &[u8]) -> usize
    requires { length text.now < 2 ^ 63 }
    ensures size { result ≡ sized_len text.now }
    ensures within { result ≤ length text.now }
{
    let width = decimal_len(text);
    base_size(width, &text[width..])
}
