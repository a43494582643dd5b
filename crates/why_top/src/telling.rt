// The report.
ghost use Rattle.std.specs.Option.{option_copied};
ghost use Rattle.why_top.specs.Seen.{TellsEnd};

use crate::answers::Answer;
use sg_io::Sink;
use signoff_phases::{Status, Stop, put_text, tell_stop};
use std::alloc::Global;

const USAGE: &str =
    "usage: why NETLIST.. (--stim F | --wave F [--scope PATH]) (--net NAME --at T | --violation LINE) [--sdf F] [--top NAME] [--corner min|typ|max] [--rounds N]";

/// Tells how the work ended, where `failed` is the name of the file in the last call of the shelf that failed, and gives the
/// program's status.
pub fn tell<K: Sink>(
    alloc: Global,
    end: &Result<Answer, Stop<'_>>,
    failed: Option<&str>,
    report: &mut K,
) -> Status
    ensures { TellsEnd (option_copied failed.entry) end.now (K.told report.old) (K.told report.new) result }
{
    match end {
        Ok(answer) => put_text(report, answer.status, &answer.report),
        Err(stop) => tell_stop(alloc, USAGE, stop, failed, report),
    }
}
