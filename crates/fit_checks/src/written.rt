// Timing checks of two limits as they are written.
ghost use Rattle.std.specs.Prelude.{◌≡◌};
ghost use Rattle.fit_checks.specs.Written as written;
ghost use Rattle.fit_checks.specs.WrittenSeen.{run_seen, runs_seen, written_seen};

use vl_token::Token;
use vl_tree::TwoLimitCheck;

/// A terminal: what stands before its `&&&`, and its condition, empty where it has none.
#[derive(Clone, Copy)]
pub struct Terminal<'t, 'a> {
    pub signal: &'t [Token<'a>],
    pub condition: &'t [Token<'a>],
}

/// `$setuphold` or `$recrem` by its arguments (IEEE 1364-2005, 15.2.3, 15.2.6). The conditions of the time stamp and of the time
/// check and the delayed signals stand in `last`, as many as the text has.
#[derive(Drop)]
pub struct Written<'t, 'a> {
    pub kind: TwoLimitCheck,
    pub refer: Terminal<'t, 'a>,
    pub datum: Terminal<'t, 'a>,
    pub first: &'t [Token<'a>],
    pub second: &'t [Token<'a>],
    pub notifier: &'t [Token<'a>],
    pub last: Vec<&'t [Token<'a>]>,
}

impl<'t, 'a> Written<'t, 'a> {
    /// The condition of the time stamp, empty where there is none.
    pub fn stamp(&self) -> &'t [Token<'a>]
        ensures { run_seen result ≡ written.stamp (written_seen self.now) }
    {
        match self.last.as_slice() {
            [stamp, ..] => stamp,
            [] => &self.notifier[..0],
        }
    }

    /// The condition of the time check, empty where there is none.
    pub fn check(&self) -> &'t [Token<'a>]
        ensures { run_seen result ≡ written.check (written_seen self.now) }
    {
        match self.last.as_slice() {
            [_, check, ..] => check,
            _ => &self.notifier[..0],
        }
    }

    /// The delayed signals.
    pub fn delayed(&self) -> &[&'t [Token<'a>]]
        ensures { runs_seen result.now ≡ written.delayed (written_seen self.now) }
    {
        match self.last.as_slice() {
            [_, _, delayed @ ..] => delayed,
            _ => &self.last[..0],
        }
    }
}
