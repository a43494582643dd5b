// The words by which a report names entries.
ghost use Rattle.std.specs.Prelude.{◌≡◌};
ghost use Rattle.annotation_model.specs.Annotated as def;
ghost use Rattle.sdf_meaning.specs.MeantSeen.{view_cell_check, view_kind};

use sdf_tree::{CellCheck, EntryKind, PairCheck, PathCondition, SingleCheck, Skipped, WindowCheck};

fn word_of_check(check: &CellCheck<'_>) -> &'static [u8]
    ensures { result.now ≡ def.word_of_check (view_cell_check check.now) }
{
    match check {
        CellCheck::Pair {
            check: PairCheck::Setup,
            ..
        } => b"SETUP",
        CellCheck::Pair {
            check: PairCheck::Hold,
            ..
        } => b"HOLD",
        CellCheck::Pair {
            check: PairCheck::Recovery,
            ..
        } => b"RECOVERY",
        CellCheck::Pair {
            check: PairCheck::Removal,
            ..
        } => b"REMOVAL",
        CellCheck::Pair {
            check: PairCheck::Skew,
            ..
        } => b"SKEW",
        CellCheck::Window {
            check: WindowCheck::SetupHold,
            ..
        } => b"SETUPHOLD",
        CellCheck::Window {
            check: WindowCheck::RecRem,
            ..
        } => b"RECREM",
        CellCheck::Single {
            check: SingleCheck::Width,
            ..
        } => b"WIDTH",
        CellCheck::Single {
            check: SingleCheck::Period,
            ..
        } => b"PERIOD",
    }
}

/// The word of an entry.
pub fn word_of(kind: &EntryKind<'_>) -> &'static [u8]
    ensures { result.now ≡ def.word_of (view_kind kind.now) }
{
    match kind {
        EntryKind::IoPath {
            condition: PathCondition::Always,
            ..
        } => b"IOPATH",
        EntryKind::IoPath {
            condition: PathCondition::If(_),
            ..
        } => b"COND",
        EntryKind::IoPath {
            condition: PathCondition::Else,
            ..
        } => b"CONDELSE",
        EntryKind::Device { .. } => b"DEVICE",
        EntryKind::Port { .. } => b"PORT",
        EntryKind::Interconnect { .. } => b"INTERCONNECT",
        EntryKind::PathPulse { percent: false, .. } => b"PATHPULSE",
        EntryKind::PathPulse { percent: true, .. } => b"PATHPULSEPERCENT",
        EntryKind::Check(check) => word_of_check(check),
        EntryKind::Skipped(Skipped::NetDelay) => b"NETDELAY",
        EntryKind::Skipped(Skipped::BidirectSkew) => b"BIDIRECTSKEW",
        EntryKind::Skipped(Skipped::NoChange) => b"NOCHANGE",
        EntryKind::Skipped(Skipped::TimingEnv) => b"TIMINGENV",
        EntryKind::Skipped(Skipped::Label) => b"LABEL",
    }
}
