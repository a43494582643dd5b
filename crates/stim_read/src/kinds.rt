// Why a stimulus's text is refused.

/// What is wrong with a statement of a stimulus. Its place is the first byte of the statement, but for `NoEnd` and a text that is
/// too long.
#[derive(Clone, Copy, Debug, PartialEq, Eq)]
pub enum StimKind {
    /// A statement has no form that there is, or stands behind an `end`, or a `unit` isn't the first statement.
    Syntax,
    /// A set is of no input of the top, or of a bit that the input hasn't.
    UnknownInput,
    /// A set has another number of digits than bits.
    WidthMismatch,
    /// The time isn't after that of the `at` before it; of an `end`, it is before the last `at`.
    TimeNotRising,
    /// The time isn't a whole number of ticks.
    NotWholeTick,
    /// No statement begins with `end`; its place is the end of the text.
    NoEnd,
    /// The time is 2^60 ticks or more; or, at byte 2^28, the text has more bytes than that.
    TooLarge,
}
