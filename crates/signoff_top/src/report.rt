// The report.
ghost use Rattle.std.specs.Prelude.{◌≡◌, List, None, map};
ghost use Rattle.std.specs.Option.{option_copied};
ghost use Rattle.sg_circuit.specs.Circuit.{Circuit};
ghost use Rattle.sg_model.specs.Machine.{Violation as ViolationSeen};
ghost use Rattle.time_checks.specs.Seen.{violation_seen};
ghost use Rattle.run_report.specs.Report.{Unmatched, report_lines, stopped_lines};
ghost use Rattle.run_report.specs.Reporting.{unmatched_seen};
ghost use Rattle.run_report.specs.Spent.{end_spent, end_time, spent_seen};
ghost use Rattle.signoff_top.specs.Answer.{status_of_run as end_status};
ghost use Rattle.signoff_phases.specs.Phases.{refusal_line, save, save_kind};
ghost use Rattle.signoff_top.specs.Phases.{usage};
ghost use Rattle.signoff_phases.specs.Told.{Tells, TellsMade};
ghost use Rattle.signoff_top.specs.Work.{TellsEnd, case_told, quiet_violations, settle_status};

use crate::bounds::BoundsDone;
use crate::summary::case_text;
use crate::work::{CaseDone, Done, RunDone, StopDone, UnsavedDone};
use crate::writing::WritingDone;
use run_report::{ReportEnd, Spent, write_report, write_stopped};
use sg_io::Sink;
use signoff_phases::{Status, Stop, put_made, put_text, save_refusal, tell_put, tell_stop};
use sim_save::SaveKind;
use std::alloc::Global;
use time_checks::Violation;

const USAGE: &str =
    "usage: signoff run NETLIST.. (--stim F | --wave F [--scope PATH]) --vcd F [--stop T --save F] [--sdf F] [--top NAME] [--corner min|typ|max] [--rounds N] [--wheel N] | signoff gen N | signoff annotate NETLIST.. --out F [--sdf F] [--top NAME] [--corner min|typ|max] | signoff settle NETLIST.. [--sdf F] [--top NAME] [--corner min|typ|max] | signoff resume NETLIST.. --state F (--stim F | --wave F [--scope PATH]) --vcd F [--sdf F] [--top NAME] [--corner min|typ|max] [--rounds N] [--wheel N]";

// How a run ended, by the end of its stimulus and by the time that was spent, if there was one.
#[tactic(auto, unfolding(run_report::specs::Report::report_lines))]
fn report_end(end: u64, spent: Option<Spent>) -> ReportEnd
    ensures { (c : Circuit) (us : List Unmatched) (vs : List ViolationSeen) → report_lines c us vs (end_time result) (end_spent result) ≡ report_lines c us vs end (spent_seen spent) }
{
    match spent {
        Some(Spent { time, net }) => ReportEnd::Spent { time, net },
        None => ReportEnd::Whole { time: end },
    }
}

fn status_of_run(spent: Option<Spent>, violations: &[Violation]) -> Status
    ensures { result ≡ end_status (spent_seen spent) (map (λ v. violation_seen v) violations.now) }
{
    match spent {
        Some(_) => Status::Rounds,
        None if violations.is_empty() => Status::Clean,
        None => Status::Violations,
    }
}

fn tell_run<K: Sink>(alloc: Global, done: &RunDone<'_>, report: &mut K) -> Status
    ensures { Tells (report_lines done.now.task.circuit (map (unmatched_seen done.now.task.sdf.items) done.now.task.unmatched.items) (map (λ v. violation_seen v) done.now.end.violations.items) done.now.task.input.end (spent_seen done.now.end.spent)) (end_status (spent_seen done.now.end.spent) (map (λ v. violation_seen v) done.now.end.violations.items)) (K.told report.old) (K.told report.new) result }
{
    let planned = status_of_run(done.end.spent, &done.end.violations);
    let put = write_report(
        alloc,
        &done.task.circuit,
        &done.task.sdf,
        &done.task.unmatched,
        &done.end.violations,
        report_end(done.task.input.end, done.end.spent),
        report,
    );
    tell_put(report, planned, put)
}

fn tell_stopped<K: Sink>(alloc: Global, done: &StopDone<'_>, report: &mut K) -> Status
    ensures { Tells (stopped_lines done.now.task.circuit (map (unmatched_seen done.now.task.sdf.items) done.now.task.unmatched.items) (map (λ v. violation_seen v) done.now.violations.items) done.now.time) (end_status None (map (λ v. violation_seen v) done.now.violations.items)) (K.told report.old) (K.told report.new) result }
{
    let planned = status_of_run(None, &done.violations);
    let put = write_stopped(
        alloc,
        &done.task.circuit,
        &done.task.sdf,
        &done.task.unmatched,
        &done.violations,
        done.time,
        report,
    );
    tell_put(report, planned, put)
}

fn tell_unsaved<K: Sink>(alloc: Global, done: &UnsavedDone<'_>, report: &mut K) -> Status
    ensures { Tells (refusal_line usage (save done.now.save.now 1 (save_kind SaveKind.TooLarge))) Status.Save (K.told report.old) (K.told report.new) result }
{
    put_made(
        report,
        Status::Save,
        save_refusal(alloc, done.save, 1, SaveKind::TooLarge),
    )
}

fn tell_writing<K: Sink>(done: &WritingDone, report: &mut K) -> Status
    ensures { TellsMade done.now.report.items Status.Clean (K.told report.old) (K.told report.new) result }
{
    put_text(report, Status::Clean, &done.report)
}

fn settle_status(cyclic: bool) -> Status
    ensures { result ≡ settle_status cyclic }
{
    if cyclic {
        Status::Violations
    } else {
        Status::Clean
    }
}

fn tell_bounds<K: Sink>(done: &BoundsDone, report: &mut K) -> Status
    ensures { Tells done.now.text.items (settle_status done.now.cyclic) (K.told report.old) (K.told report.new) result }
{
    put_text(report, settle_status(done.cyclic), &done.text)
}

fn tell_case<K: Sink>(alloc: Global, done: &CaseDone<'_>, report: &mut K) -> Status
    ensures { Tells (case_told done.now) (end_status (spent_seen done.now.end.spent) (quiet_violations done.now.end)) (K.told report.old) (K.told report.new) result }
{
    let end = &done.end;
    let planned = status_of_run(end.spent, &end.violations);
    put_made(report, planned, case_text(alloc, done))
}

/// Tells how the work ended, where `failed` is the name of the file in the last call of the shelf that failed, and
/// gives the program's status.
pub fn tell<K: Sink>(
    alloc: Global,
    end: &Result<Done<'_>, Stop<'_>>,
    failed: Option<&str>,
    report: &mut K,
) -> Status
    ensures { TellsEnd (option_copied failed.entry) end.now (K.told report.old) (K.told report.new) result }
{
    match end {
        Ok(Done::Run(done)) => tell_run(alloc, done, report),
        Ok(Done::Stop(done)) => tell_stopped(alloc, done, report),
        Ok(Done::Unsaved(done)) => tell_unsaved(alloc, done, report),
        Ok(Done::Writing(done)) => tell_writing(done, report),
        Ok(Done::Bounds(done)) => tell_bounds(done, report),
        Ok(Done::Case(done)) => tell_case(alloc, done, report),
        Err(stop) => tell_stop(alloc, USAGE, stop, failed, report),
    }
}
