// The names of timing checks.
ghost use Rattle.std.specs.Prelude.{◌≡◌, map};
ghost use Rattle.vl_tree.specs.CheckNames.{check_in, check_of};
ghost use Rattle.vl_tree.specs.CheckNamesSeen.{row};

/// A timing check between two events with one limit (IEEE 1364-2005, clause 15).
#[derive(Clone, Copy, Debug, PartialEq, Eq)]
pub enum OneLimitCheck {
    /// `$setup`
    Setup,
    /// `$hold`
    Hold,
    /// `$recovery`
    Recovery,
    /// `$removal`
    Removal,
    /// `$skew`
    Skew,
}

/// A timing check between two events with a limit on each side.
#[derive(Clone, Copy, Debug, PartialEq, Eq)]
pub enum TwoLimitCheck {
    /// `$setuphold`
    SetupHold,
    /// `$recrem`
    RecRem,
}

/// What a system name of the grammar names.
#[derive(Clone, Copy, Debug, PartialEq, Eq)]
pub enum CheckName {
    OneLimit(OneLimitCheck),
    TwoLimits(TwoLimitCheck),
    /// `$width`
    Width,
    /// `$period`
    Period,
}

// In the order of the definition.
const CHECKS: [(&str, CheckName); 9] = [
    ("$setup", CheckName::OneLimit(OneLimitCheck::Setup)),
    ("$hold", CheckName::OneLimit(OneLimitCheck::Hold)),
    ("$recovery", CheckName::OneLimit(OneLimitCheck::Recovery)),
    ("$removal", CheckName::OneLimit(OneLimitCheck::Removal)),
    ("$skew", CheckName::OneLimit(OneLimitCheck::Skew)),
    ("$setuphold", CheckName::TwoLimits(TwoLimitCheck::SetupHold)),
    ("$recrem", CheckName::TwoLimits(TwoLimitCheck::RecRem)),
    ("$width", CheckName::Width),
    ("$period", CheckName::Period),
];

// The check of the first of the rows with these bytes.
fn check_in(rows: &[(&str, CheckName)], bytes: &[u8]) -> Option<CheckName>
    ensures { result ≡ check_in bytes.now (map row rows.now) }
{
    let mut rest = rows;
    while let [(spelling, name), tail @ ..] = rest {
        if spelling.as_bytes() == bytes {
            return Some(*name);
        }
        rest = tail;
    }
    None
}

/// The timing check that the bytes name, if they name one.
pub fn check_of(bytes: &[u8]) -> Option<CheckName>
    ensures { result ≡ check_of bytes.now }
{
    check_in(&CHECKS, bytes)
}
