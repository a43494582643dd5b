// Why a file is refused.
use thiserror::Error;

/// Why an SDF file is refused.
#[derive(Clone, Copy, Debug, PartialEq, Eq, Error)]
pub enum SdfKind {
    /// A control byte that is no blank, or one above 126, outside comments and texts.
    #[error("a byte that no text may have")]
    BadByte,
    /// No rule takes the token there.
    #[error("a token that no rule takes")]
    Syntax,
    /// A list of delays that has not 1, 2, 3, 6 or 12 of them.
    #[error("a list that has not 1, 2, 3, 6 or 12 values")]
    BadCount,
    /// A number's word that is no decimal, or has more than 18 digits.
    #[error("not a number")]
    BadNumber,
    /// More than 32 parentheses within one another.
    #[error("more than 32 parentheses within one another")]
    TooDeep,
    /// A file of more than 2^28 bytes.
    #[error("a file of more than 2^28 bytes")]
    FileTooLarge,
    /// An error limit below its reject limit.
    #[error("an error limit below its reject limit")]
    LimitsCross,
}
