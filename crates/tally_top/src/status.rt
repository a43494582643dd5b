// How the program ends.
ghost use Rattle.std.specs.Prelude.{◌≡◌};
ghost use Rattle.tally_top.specs.Status.{code_of, is_report as says_report};

#[derive(Clone, Copy, Debug, PartialEq, Eq)]
pub enum Status {
    Clear,
    Left,
    Usage,
    Refused,
    Fault,
    NoMemory,
    Missing,
}

impl Status {
    /// The program's exit status.
    pub fn code(&self) -> u8
        ensures { result ≡ code_of self.now }
    {
        match self {
            Status::Clear => 0,
            Status::Left => 1,
            Status::Usage => 2,
            Status::Refused => 5,
            Status::Fault => 6,
            Status::NoMemory => 9,
            Status::Missing => 11,
        }
    }

    // Whether the report is one of figures.
    pub fn is_report(&self) -> bool
        ensures { result ≡ says_report self.now }
    {
        matches!(self, Status::Clear | Status::Left)
    }
}
