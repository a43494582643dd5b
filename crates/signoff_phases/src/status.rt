// How the program ends.
ghost use Rattle.std.specs.Prelude.{◌≡◌};
ghost use Rattle.signoff_phases.specs.Status.{code_of, is_run_end as says_run_end};

#[derive(Clone, Copy, Debug, PartialEq, Eq)]
pub enum Status {
    Clean,
    Violations,
    Usage,
    Netlist,
    Sdf,
    Stimulus,
    Fault,
    Rounds,
    Unwritable,
    NoMemory,
    Save,
    Missing,
}

impl Status {
    /// The program's exit status.
    pub fn code(&self) -> u8
        ensures { result ≡ code_of self.now }
    {
        match self {
            Status::Clean => 0,
            Status::Violations => 1,
            Status::Usage => 2,
            Status::Netlist => 3,
            Status::Sdf => 4,
            Status::Stimulus => 5,
            Status::Fault => 6,
            Status::Rounds => 7,
            Status::Unwritable => 8,
            Status::NoMemory => 9,
            Status::Save => 10,
            Status::Missing => 11,
        }
    }

    // Whether a run came to its end.
    pub fn is_run_end(&self) -> bool
        ensures { result ≡ says_run_end self.now }
    {
        matches!(self, Status::Clean | Status::Violations)
    }
}
