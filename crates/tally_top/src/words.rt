// The words of the command line.
ghost use Rattle.std.specs.Prelude.{◌≡◌, map, option_map, string_bytes};
ghost use Rattle.tally_top.specs.Words as def;
ghost use Rattle.tally_top.specs.Seen.{asked_seen};

/// What the words ask for: the figures of a report's violations, but for those that waivers take.
#[derive(Clone, Copy, Debug)]
pub struct Asked<'a> {
    pub report: &'a str,
    pub waive: Option<&'a str>,
}

fn word_at(words: &[String], at: usize) -> &str
    ensures { result.now ≡ def.word_at (map string_bytes words.now) at }
{
    match words.get(at) {
        Some(word) => word.as_str(),
        None => "",
    }
}

fn is_name(word: &str) -> bool
    ensures { result ≡ def.is_name word.now }
{
    word.len() > 0 && !word.starts_with("-")
}

fn is_option(word: &str) -> bool
    ensures { result ≡ def.is_option word.now }
{
    word == "--waive"
}

fn asked_plain(report: &str) -> Option<Asked<'_>>
    ensures { option_map (λ a. asked_seen a) result ≡ def.asked_plain report.now }
{
    if !is_name(report) {
        return None;
    }
    Some(Asked {
        report,
        waive: None,
    })
}

fn asked_waived<'a>(report: &'a str, waive: &'a str) -> Option<Asked<'a>>
    ensures { option_map (λ a. asked_seen a) result ≡ def.asked_waived report.now waive.now }
{
    if !(is_name(report) && is_name(waive)) {
        return None;
    }
    Some(Asked {
        report,
        waive: Some(waive),
    })
}

fn asked_in_four(words: &[String]) -> Option<Asked<'_>>
    ensures { option_map (λ a. asked_seen a) result ≡ def.asked_in_four (map string_bytes words.now) }
{
    let (first, second) = (word_at(words, 1), word_at(words, 2));
    let third = word_at(words, 3);
    if is_option(second) {
        return asked_waived(first, third);
    }
    if is_option(first) {
        return asked_waived(third, second);
    }
    None
}

/// What the words after the program's name ask for, or None where they are refused.
pub fn read_words(words: &[String]) -> Option<Asked<'_>>
    ensures { option_map (λ a. asked_seen a) result ≡ def.asked_of (map string_bytes words.now) }
{
    if word_at(words, 0) != "violations" {
        return None;
    }
    match words.len() {
        2 => asked_plain(word_at(words, 1)),
        4 => asked_in_four(words),
        _ => None,
    }
}
