// What a netlist's text may be refused for.
ghost use Rattle.std.specs.Prelude.{◌≡◌};

use sg_text::{Place, Refused};
use thiserror::Error;

/// A fault of a netlist's text or of its directives.
#[derive(Clone, Copy, Debug, PartialEq, Eq, Error)]
pub enum LexKind {
    /// A control byte that is no blank, or one above 126, outside comments and quoted texts.
    #[error("a byte that no text may have")]
    BadByte,
    /// A comment or an attribute that isn't closed in its text.
    #[error("a comment without an end")]
    UnendedComment,
    /// A quoted text that isn't closed in its text.
    #[error("a quoted text without an end")]
    UnendedText,
    #[error("neither a directive nor a macro")]
    UnknownDirective,
    /// A branch that no `` `ifdef`` opened, or that is open at the end.
    #[error("a branch without its partner")]
    UnbalancedIf,
    /// A macro's use within 16 others.
    #[error("macros within one another more than 16 deep")]
    MacroTooDeep,
    /// A file of more than 2^28 bytes.
    #[error("a file of more than 2^28 bytes")]
    FileTooLarge,
    #[error("a directive whose words aren't of its form")]
    BadDirective,
}

/// A fault, and how many bytes behind a piece's first byte it stands.
#[derive(Clone, Copy, Debug, PartialEq, Eq)]
pub struct Found {
    pub kind: LexKind,
    pub behind: usize,
}

pub fn fault(kind: LexKind, place: Place) -> Refused<LexKind>
    ensures { result ≡ Refused.Fault kind place }
{
    Refused::Fault { kind, place }
}

pub fn bad_directive(place: Place) -> Refused<LexKind>
    ensures { result ≡ Refused.Fault LexKind.BadDirective place }
{
    fault(LexKind::BadDirective, place)
}
