// The words of a timescale.
ghost use Rattle.std.specs.Prelude.{◌≡◌, ◌≤◌, ◌≤ℤ◌, pos, negsuc, length, true, false, IfSome, MatchOption};
ghost use Rattle.std.specs.List.{prefix_len};
ghost use Rattle.std.specs.Char.{is_ascii_digit};
ghost use Rattle.vcd_form.specs.Kinds as def;
ghost use Rattle.vcd_form.specs.Rules.{power_of};

// The power of ten of 1, 10 or 100.
fn scale_power(text: &[u8]) -> Option<i8>
    ensures power { result ≡ def.scale_power text.now }
    ensures least { IfSome result (λ n. pos 0 ≤ℤ n) }
    ensures greatest { IfSome result (λ n. n ≤ℤ pos 2) }
{
    match text {
        b"1" => Some(0),
        b"10" => Some(1),
        b"100" => Some(2),
        _ => None,
    }
}

// The power of ten of a second that a unit is.
fn unit_power(text: &[u8]) -> Option<i8>
    ensures power { result ≡ def.unit_power text.now }
    ensures least { IfSome result (λ n. negsuc 14 ≤ℤ n) }
    ensures greatest { IfSome result (λ n. n ≤ℤ pos 0) }
{
    match text {
        b"s" => Some(0),
        b"ms" => Some(-3),
        b"us" => Some(-6),
        b"ns" => Some(-9),
        b"ps" => Some(-12),
        b"fs" => Some(-15),
        _ => None,
    }
}

fn digits_len(text: &[u8]) -> usize
    ensures size { result ≡ prefix_len is_ascii_digit text.now }
    ensures within { result ≤ length text.now }
{
    text.iter().take_while(|b| b.is_ascii_digit()).count()
}

// The power of a number and a unit in one word.
fn joined_power(text: &[u8]) -> Option<i8>
    ensures { result ≡ def.joined_power text.now }
{
    let (number, unit) = text.split_at(digits_len(text));
    let scale = scale_power(number)?;
    let unit = unit_power(unit)?;
    Some(scale + unit)
}

/// The power of ten of a word that is 1, 10 or 100.
#[tactic(auto, using(crate::proofs::KindLaws::scale_is))]
pub fn scale_of(text: &[u8]) -> Option<i8>
    ensures power { MatchOption result (def.is_scale (def.kind_of_text text.now) ≡ false) (λ n. (def.is_scale (def.kind_of_text text.now) ≡ true) × (power_of (def.scale_power text.now) ≡ n)) }
    ensures least { IfSome result (λ n. pos 0 ≤ℤ n) }
    ensures greatest { IfSome result (λ n. n ≤ℤ pos 2) }
{
    scale_power(text)
}

/// The power of ten of a word that is a unit.
#[tactic(auto, using(crate::proofs::KindLaws::unit_is))]
pub fn unit_of(text: &[u8]) -> Option<i8>
    ensures power { MatchOption result (def.is_unit (def.kind_of_text text.now) ≡ false) (λ n. (def.is_unit (def.kind_of_text text.now) ≡ true) × (power_of (def.unit_power text.now) ≡ n)) }
    ensures least { IfSome result (λ n. negsuc 14 ≤ℤ n) }
    ensures greatest { IfSome result (λ n. n ≤ℤ pos 0) }
{
    unit_power(text)
}

/// The power of ten of a word that is both.
#[tactic(auto, using(crate::proofs::KindLaws::joined_is))]
pub fn joined_of(text: &[u8]) -> Option<i8>
    ensures { MatchOption result (def.is_joined (def.kind_of_text text.now) ≡ false) (λ n. (def.is_joined (def.kind_of_text text.now) ≡ true) × (power_of (def.joined_power text.now) ≡ n)) }
{
    match scale_power(text) {
        Some(_) => None,
        None => joined_power(text),
    }
}
