// The faults that pieces of a text are, and the first one of a macro's text.
ghost use Rattle.std.specs.Prelude.{◌≡◌, ◌≤◌, ◌<◌, ◌+◌, ◌^◌, length, IfSome, IfNone, Some, None, ℕ};
ghost use Rattle.vl_lex.specs.Effects.{is_bad, bad_from, fault_of, fault_in};
ghost use Rattle.vl_lex.specs.StateBridge.{IsChecked};

use crate::faults::{Found, LexKind, fault};
use crate::origins::Origin;
use sg_text::Refused;
use vl_pieces::{Class, Mode, first_piece, is_blank};

fn is_bad(b: u8) -> bool
    ensures { result ≡ is_bad b }
{
    !(is_blank(b) || b.is_ascii_graphic())
}

// The first bad byte.
fn bad_byte(bytes: &[u8]) -> Option<Found>
    ensures value { result ≡ bad_from 0 bytes.now }
    ensures within { IfSome result (λ found. found.behind ≤ length bytes.now) }
{
    let mut behind = 0;
    let mut rest = bytes;
    while let [b, tail @ ..] = rest {
        if is_bad(*b) {
            return Some(Found {
                kind: LexKind::BadByte,
                behind,
            });
        }
        behind += 1;
        rest = tail;
    }
    None
}

// The fault that a piece is, if it is one.
pub fn fault_of(class: Class, bytes: &[u8]) -> Option<Found>
    ensures value { result ≡ fault_of class bytes.now }
    ensures within { IfSome result (λ found. found.behind ≤ length bytes.now) }
{
    let kind = match class {
        Class::Attribute => return bad_byte(bytes),
        Class::BadByte => LexKind::BadByte,
        Class::UnendedComment => LexKind::UnendedComment,
        Class::UnendedText => LexKind::UnendedText,
        _ => return None,
    };
    Some(Found { kind, behind: 0 })
}

// The same by whether the text is looked at.
pub fn fault_in(looked_at: bool, class: Class, bytes: &[u8]) -> Option<Found>
    ensures value { result ≡ fault_in looked_at class bytes.now }
    ensures within { IfSome result (λ found. found.behind ≤ length bytes.now) }
{
    if looked_at {
        return fault_of(class, bytes);
    }
    match class {
        Class::BadByte | Class::Attribute => None,
        _ => fault_of(class, bytes),
    }
}

// Whether a macro's text is without fault, where it begins at this byte.
pub fn check_text(origin: Origin, start: usize, text: &[u8]) -> Result<(), Refused<LexKind>>
    requires { start + length text.now < 2 ^ 62 }
    ensures { IsChecked origin start text.now result }
{
    let mut at = start;
    let mut rest = text;
    while !rest.is_empty() {
        let (class, size) = first_piece(Mode::Plain, rest);
        let (bytes, tail) = rest.split_at(size);
        if let Some(found) = fault_of(class, bytes) {
            return Err(fault(found.kind, origin.place_at(at + found.behind)));
        }
        at += size;
        rest = tail;
    }
    Ok(())
}
