// The kinds of word that the grammar tells apart, and the forms of words.
ghost use Rattle.std.specs.Prelude.{◌≡◌, ◌||◌, ◌==◌, ◌∷◌, bytes_eq, codes};
ghost use Rattle.std.specs.Char.{is_ascii_digit};
ghost use Rattle.std.specs.List.{list_all};
ghost use Rattle.vcd_form.specs.Kinds as def;
ghost use Rattle.vcd_form.specs.Rules.{section_starts};
ghost use Rattle.vcd_form.specs.Seen.{kind_seen};

/// The kind of a word.
#[derive(Clone, Copy, Debug)]
pub enum WordKind {
    /// `$date` and `$version`.
    Remark,
    Comment,
    Timescale,
    Scope,
    Upscope,
    Var,
    Definitions,
    /// `$dumpvars`, `$dumpall`, `$dumpon` and `$dumpoff`.
    Dump,
    End,
    Time,
    /// A value of one bit with its code.
    Scalar,
    Vector,
    Real,
    Other,
}

fn is_word(text: &[u8], word: &str) -> bool
    ensures { result ≡ bytes_eq text.now word.now }
{
    text == word.as_bytes()
}

fn all_code_bytes(text: &[u8]) -> bool
    ensures { result ≡ list_all def.is_code_byte text.now }
{
    text.iter().all(|b| 33 <= *b && *b <= 126)
}

fn is_code(text: &[u8]) -> bool
    ensures { result ≡ def.is_code_text text.now }
{
    text.len() > 0 && all_code_bytes(text)
}

fn all_digits(text: &[u8]) -> bool
    ensures { result ≡ list_all is_ascii_digit text.now }
{
    text.iter().all(|b| b.is_ascii_digit())
}

pub fn are_digits(text: &[u8]) -> bool
    ensures { result ≡ def.are_digits text.now }
{
    text.len() > 0 && all_digits(text)
}

fn is_value_byte(b: u8) -> bool
    ensures { result ≡ def.is_value_byte b }
{
    b == b'0' || b == b'1' || b == b'x' || b == b'X' || b == b'z' || b == b'Z'
}

fn all_value_bytes(text: &[u8]) -> bool
    ensures { result ≡ list_all def.is_value_byte text.now }
{
    text.iter().all(|b| is_value_byte(*b))
}

fn are_values(text: &[u8]) -> bool
    ensures { result ≡ def.are_values text.now }
{
    text.len() > 0 && all_value_bytes(text)
}

// The kind of a word that is no keyword, by its first byte and those behind it.
fn value_kind(first: u8, rest: &[u8]) -> WordKind
    ensures { kind_seen (first ∷ rest.now) result ≡ def.value_kind_of (first ∷ rest.now) }
{
    if first == b'#' && are_digits(rest) {
        return WordKind::Time;
    }
    if is_value_byte(first) && is_code(rest) {
        return WordKind::Scalar;
    }
    if (first == b'b' || first == b'B') && are_values(rest) {
        return WordKind::Vector;
    }
    if first == b'r' || first == b'R' {
        return WordKind::Real;
    }
    WordKind::Other
}

fn value_kind_of(text: &[u8]) -> WordKind
    ensures { kind_seen text.now result ≡ def.value_kind_of text.now }
{
    match text {
        [first, rest @ ..] => value_kind(*first, rest),
        [] => WordKind::Other,
    }
}

// Whether a word begins as keywords do.
fn begins_keyword(text: &[u8]) -> bool
    ensures { result ≡ def.begins_keyword text.now }
{
    match text {
        [first, ..] => *first == b'$',
        [] => false,
    }
}

fn is_remark(text: &[u8]) -> bool
    ensures { result ≡ (bytes_eq text.now (codes "$date") || bytes_eq text.now (codes "$version")) }
{
    is_word(text, "$date") || is_word(text, "$version")
}

fn is_dump(text: &[u8]) -> bool
    ensures { result ≡ def.is_dump_text text.now }
{
    is_word(text, "$dumpvars")
        || is_word(text, "$dumpall")
        || is_word(text, "$dumpon")
        || is_word(text, "$dumpoff")
}

// The kind of a word that is none of the first keywords of the definition.
fn later_kind(text: &[u8]) -> WordKind
    ensures { kind_seen text.now result ≡ def.later_kind_of text.now }
{
    if is_word(text, "$timescale") {
        return WordKind::Timescale;
    }
    if is_word(text, "$comment") {
        return WordKind::Comment;
    }
    if is_remark(text) {
        return WordKind::Remark;
    }
    if is_dump(text) {
        return WordKind::Dump;
    }
    value_kind_of(text)
}

fn keyword_kind(text: &[u8]) -> WordKind
    ensures { kind_seen text.now result ≡ def.kind_of_text text.now }
{
    if is_word(text, "$end") {
        return WordKind::End;
    }
    if is_word(text, "$var") {
        return WordKind::Var;
    }
    if is_word(text, "$scope") {
        return WordKind::Scope;
    }
    if is_word(text, "$upscope") {
        return WordKind::Upscope;
    }
    if is_word(text, "$enddefinitions") {
        return WordKind::Definitions;
    }
    later_kind(text)
}

/// The kind of a word.
#[tactic(auto, using(crate::proofs::KindLaws::no_keyword))]
pub fn kind_of(text: &[u8]) -> WordKind
    ensures { kind_seen text.now result ≡ def.kind_of_text text.now }
{
    if !begins_keyword(text) {
        return value_kind_of(text);
    }
    keyword_kind(text)
}

#[tactic(auto, using(crate::proofs::KindLaws::end_is))]
pub fn is_end(text: &[u8]) -> bool
    ensures { result ≡ def.is_end (def.kind_of_text text.now) }
{
    is_word(text, "$end")
}

// Whether a word of its own is a code.
#[tactic(auto, using(crate::proofs::KindLaws::code_is))]
pub fn is_own_code(text: &[u8]) -> bool
    ensures { result ≡ def.is_code (def.kind_of_text text.now) }
{
    is_code(text) && !is_word(text, "$end")
}

// Whether a section of the header begins with a word.
pub fn begins_section(text: &[u8]) -> bool
    ensures { result ≡ section_starts (def.kind_of_text text.now) }
{
    matches!(
        kind_of(text),
        WordKind::Remark
            | WordKind::Comment
            | WordKind::Timescale
            | WordKind::Scope
            | WordKind::Upscope
            | WordKind::Var
    )
}

pub fn is_definitions(text: &[u8]) -> bool
    ensures { result ≡ def.is_definitions (def.kind_of_text text.now) }
{
    matches!(kind_of(text), WordKind::Definitions)
}
