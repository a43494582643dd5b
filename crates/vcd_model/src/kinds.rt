// Why a dump is refused as a stimulus.

/// What is wrong with a dump. Its place is that of the word, but where another is named.
#[derive(Clone, Copy, Debug, PartialEq, Eq)]
pub enum VcdKind {
    /// The word can't stand there, which may be the end of the text; a `$timescale` comes twice; an `$upscope` stands where no scope is open; or an input has a real value.
    Syntax,
    /// No `$var` has the code; the place is that of the code.
    UnknownCode,
    /// The variable of an input has another width than the input, or an index that it lacks, at the `$var`; or a value is longer than its variable.
    WidthMismatch,
    /// A time is below the one before.
    TimeFalls,
    /// A time isn't a whole number of ticks.
    NotWholeTick,
    /// A time is 2^60 ticks or more, or has more than 19 digits behind leading zeros; or, at byte 2^28, the text has more bytes than that.
    TooLarge,
    /// No scope has the path; the place is that of `$enddefinitions`.
    NoScope,
}
