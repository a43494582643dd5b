// Names of wires that a module hasn't.
use fit_items::name_of;
use vl_token::{Token, number_of};

fn wire_number(name: &[u8]) -> Option<u64> {
    match name {
        [b's', b'g', b'_', b'w', digits @ ..] if digits.iter().all(|b| b.is_ascii_digit()) => {
            number_of(digits)
        }
        _ => None,
    }
}

/// The least number such that no name of a module is `sg_w` and this number or a greater one.
pub fn first_free(part: &[Token<'_>]) -> u64 {
    let mut first: u64 = 1;
    for token in part {
        if let Some(number) = wire_number(name_of(token).unwrap_or(b"")) {
            first = first.max(number.saturating_add(1));
        }
    }
    first
}
