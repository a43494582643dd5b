// Numbers as they are written.
ghost use Rattle.std.specs.Prelude.{◌≡◌, ◌≤◌};
ghost use Rattle.std.specs.Char.{is_ascii_digit};
ghost use Rattle.std.specs.List.{list_all};
ghost use Rattle.run_words.specs.Words.{is_number, number_up_to, time_within};

fn are_digits(text: &str) -> bool
    ensures { result ≡ list_all is_ascii_digit text.now }
{
    text.as_bytes().iter().all(|b| b.is_ascii_digit())
}

fn is_number(digits: usize, text: &str) -> bool
    ensures { result ≡ is_number digits text.now }
{
    are_digits(text) && 1 <= text.len() && text.len() <= digits
}

/// The number of one to so many decimal digits, if it is from 1 to the most that it may be.
pub fn number_up_to(digits: usize, most: u32, text: &str) -> Option<u32>
    requires { digits ≤ 9 }
    ensures { result ≡ number_up_to digits most text.now }
{
    if !is_number(digits, text) {
        return None;
    }
    let number = text.parse().ok()?;
    (1 <= number && number <= most).then_some(number)
}

/// The time of one to so many decimal digits, in ticks.
pub fn time_within(digits: usize, text: &str) -> Option<u64>
    requires { digits ≤ 18 }
    ensures { result ≡ time_within digits text.now }
{
    if !is_number(digits, text) {
        return None;
    }
    text.parse().ok()
}
