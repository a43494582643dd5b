// What an SDF file's bytes may be refused for.
use thiserror::Error;

/// Why an SDF file has no tokens.
#[derive(Clone, Copy, Debug, PartialEq, Eq, Error)]
pub enum LexKind {
    /// A control byte that is no blank, or one above 126, outside comments and texts.
    #[error("a byte that no text may have")]
    BadByte,
    /// A file of more than 2^28 bytes.
    #[error("a file of more than 2^28 bytes")]
    FileTooLarge,
}
