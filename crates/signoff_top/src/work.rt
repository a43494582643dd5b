// All that the program does with the shelf.
ghost use Rattle.std.specs.Prelude.{◌≡◌, ◌≤◌, ◌<◌, ℕ, List, [], ◌∷◌, Contains, IfErr, Ok, Option, Some, length, map, string_bytes};
ghost use Rattle.sg_io.specs.Faults.{Cause};
ghost use Rattle.sg_io.specs.Files.{BothTell, File};
ghost use Rattle.sg_stimulus.specs.Applied.{IsApplied};
ghost use Rattle.sg_stimulus.specs.Seen.{stimulus_seen};
ghost use Rattle.time_checks.specs.Seen.{violation_seen};
ghost use Rattle.sim_rounds.specs.MomentsSeen.{moment_seen};
ghost use Rattle.run_dump.specs.RunEnds.{HasReached};
ghost use Rattle.run_words.specs.Words.{Asked as Asking, Command as TheCommand, Writing as TheWriting, a_case, a_rest, a_run, a_stop, a_writing, asked_of, names_in, the_bounds};
ghost use Rattle.run_words.specs.WordsSeen.{command_seen, design_seen, stop_seen, writing_seen};
ghost use Rattle.signoff_top.specs.Answer.{FilesAfter, answer_of, begun_dump, stop_answer, stopped_of};
ghost use Rattle.signoff_top.specs.Phases.{CommandOutcome, Task as TheTask};
ghost use Rattle.signoff_top.specs.Promises.{NamesFaultAt};
ghost use Rattle.signoff_phases.specs.Stops.{IfFailed, NeverFails, SparesWords, StopWords, UnlessCut, end_of_phase};
ghost use Rattle.signoff_top.specs.Tasks.{IsSound, task_seen};
ghost use Rattle.signoff_top.specs.Work.{Answers, HasStopped, IsSaved, LeavesDelays, SavesFrom, WorkLeaves};

use crate::bounds::{BoundsDone, bounds_of};
use crate::generated::case_task;
use crate::phases::{Task, task_of, words_phase};
use crate::stopping::rest_of;
use crate::writing::{WritingDone, make_file, written_of, written_report};
use run_dump::{
    QuietEnd, Reached, RunEnd, StopEnd, resume_and_dump, run_and_dump, run_quietly, stop_and_dump,
};
use run_words::{Asked, Command, Design, Writing};
use sg_io::{Shelf, ShelfError};
use signoff_phases::{Stop, annotated_of};
use sim_rounds::Moment;
use sim_save::{SaveError, save_text};
use std::alloc::Global;
use time_checks::Violation;

/// A command's task that was run, and what the run came to.
#[derive(Drop)]
pub struct RunDone<'a> {
    pub task: Task<'a>,
    pub end: RunEnd,
}

/// A command's task that was run up to its stop, in ticks, and saved; and the violations that were found.
#[derive(Drop)]
pub struct StopDone<'a> {
    pub task: Task<'a>,
    pub time: u64,
    pub violations: Vec<Violation>,
}

/// A run that was stopped, and whose save would have been too large for this file.
#[derive(Drop)]
pub struct UnsavedDone<'a> {
    pub save: &'a str,
}

/// The task of a generated case of so many stages that was run, and what the run came to.
#[derive(Drop)]
pub struct CaseDone<'a> {
    pub stages: u32,
    pub task: Task<'a>,
    pub end: QuietEnd,
}

/// What the words ask for, done.
#[derive(Drop)]
pub enum Done<'a> {
    /// A run that was whole, or in which a time was spent, or the rest of one.
    Run(RunDone<'a>),
    Stop(StopDone<'a>),
    Unsaved(UnsavedDone<'a>),
    Writing(WritingDone),
    Bounds(BoundsDone),
    Case(CaseDone<'a>),
}

// Runs a task, and writes the value change dump.
fn run_task<'a, S: Shelf>(
    alloc: Global,
    task: Task<'a>,
    shelf: &mut S,
) -> Result<Done<'a>, Stop<'a>>
    requires applied { IsApplied task.circuit (stimulus_seen task.input) }
    requires ranges { (1 ≤ task.rounds) × (1 ≤ task.wheel) × (task.wheel ≤ 1048576) }
    ensures left { (ws : List (List ℕ)) (old : Option (List File)) → Answers ws (answer_of (Ok (task_seen task.entry))) old → S.files shelf.old ≡ old → BothTell old (S.files shelf.new) (WorkLeaves ws result) }
    ensures cause { Cause (S.fault_count shelf.old) (S.fault_count shelf.new) (end_of_phase result) }
    ensures named { (ws : List (List ℕ)) (asked : Asking) (old : Option (List File)) → asked_of ws ≡ Some asked → Contains (names_in (Some asked)) task.entry.vcd.now → Answers ws (answer_of (Ok (task_seen task.entry))) old → S.files shelf.old ≡ old
        → IfFailed (NamesFaultAt ws old (S.files shelf.new) (S.last_fault shelf.new)) result }
    ensures words { IfErr result (λ s. SparesWords s) }
{
    match run_and_dump(
        alloc,
        &task.circuit,
        &task.input,
        task.rounds,
        task.wheel,
        task.vcd,
        shelf,
    ) {
        Ok(end) => Ok(Done::Run(RunDone { task, end })),
        Err(ShelfError::Failed) => Err(Stop::Failed),
        Err(ShelfError::NoMemory) => Err(Stop::NoMemory),
    }
}

// Reads what a command names, runs it, and writes the value change dump.
fn run_command<'a, S: Shelf>(
    alloc: Global,
    command: &Command<'a>,
    shelf: &mut S,
) -> Result<Done<'a>, Stop<'a>>
    requires ranges { (1 ≤ command.now.rounds) × (1 ≤ command.now.wheel) × (command.now.wheel ≤ 1048576) }
    requires some { 0 < length command.now.design.netlists.items }
    ensures left { (ws : List (List ℕ)) → asked_of ws ≡ Some (a_run (command_seen command.now))
        → BothTell (S.files shelf.old) (S.files shelf.new) (WorkLeaves ws result) }
    ensures cause { Cause (S.fault_count shelf.old) (S.fault_count shelf.new) (end_of_phase result) }
    ensures named { (ws : List (List ℕ)) → asked_of ws ≡ Some (a_run (command_seen command.now))
        → IfFailed (NamesFaultAt ws (S.files shelf.old) (S.files shelf.new) (S.last_fault shelf.new)) result }
    ensures words { IfErr result (λ s. SparesWords s) }
{
    let task = task_of(alloc, command, shelf)?;
    run_task(alloc, task, shelf)
}

// Makes the save of a run that was stopped, whose dump was made.
fn write_save<'a, S: Shelf>(
    done: StopDone<'a>,
    save: &'a str,
    text: &[u8],
    shelf: &mut S,
) -> Result<Done<'a>, Stop<'a>>
    requires { IsSaved done save.now text.now }
    ensures left { (ws : List (List ℕ)) (old : Option (List File)) → SavesFrom ws done.entry save.now old (S.files shelf.old) → BothTell old (S.files shelf.new) (WorkLeaves ws result) }
    ensures cause { Cause (S.fault_count shelf.old) (S.fault_count shelf.new) (end_of_phase result) }
    ensures named { (ws : List (List ℕ)) (asked : Asking) (old : Option (List File)) → asked_of ws ≡ Some asked → Contains (names_in (Some asked)) save.now → SavesFrom ws done.entry save.now old (S.files shelf.old)
        → IfFailed (NamesFaultAt ws old (S.files shelf.new) (S.last_fault shelf.new)) result }
    ensures words { IfErr result (λ s. SparesWords s) }
{
    match make_file(shelf, save, text) {
        Ok(()) => Ok(Done::Stop(done)),
        Err(ShelfError::Failed) => Err(Stop::Failed),
        Err(ShelfError::NoMemory) => Err(Stop::NoMemory),
    }
}

// Saves what a run came to that was stopped, whose dump was made.
fn save_moment<'a, S: Shelf>(
    alloc: Global,
    done: StopDone<'a>,
    save: &'a str,
    moment: &Moment,
    shelf: &mut S,
) -> Result<Done<'a>, Stop<'a>>
    requires { HasStopped done save.now (moment_seen moment.now) }
    ensures left { (ws : List (List ℕ)) (old : Option (List File)) → SavesFrom ws done.entry save.now old (S.files shelf.old) → BothTell old (S.files shelf.new) (WorkLeaves ws result) }
    ensures cause { Cause (S.fault_count shelf.old) (S.fault_count shelf.new) (end_of_phase result) }
    ensures named { (ws : List (List ℕ)) (asked : Asking) (old : Option (List File)) → asked_of ws ≡ Some asked → Contains (names_in (Some asked)) save.now → SavesFrom ws done.entry save.now old (S.files shelf.old)
        → IfFailed (NamesFaultAt ws old (S.files shelf.new) (S.last_fault shelf.new)) result }
    ensures words { IfErr result (λ s. SparesWords s) }
{
    match save_text(alloc, &done.task.circuit, moment) {
        Ok(text) => write_save(done, save, &text, shelf),
        Err(SaveError::TooLarge) => Ok(Done::Unsaved(UnsavedDone { save })),
        Err(SaveError::NoMemory) => Err(Stop::NoMemory),
    }
}

// Ends a run whose dump was made up to its stop, or up to a time that was spent.
fn end_stop<'a, S: Shelf>(
    alloc: Global,
    task: Task<'a>,
    stop: run_words::Stop<'a>,
    end: StopEnd,
    shelf: &mut S,
) -> Result<Done<'a>, Stop<'a>>
    requires before { stop.time < task.input.end }
    requires reached { HasReached task.circuit (stopped_of (task_seen task) (stop_seen stop)) stop.time end.reached }
    requires violations { map (λ v. violation_seen v) end.violations.items ≡ (stopped_of (task_seen task) (stop_seen stop)).run.violations }
    ensures left { (ws : List (List ℕ)) (old : Option (List File)) → Answers ws (stop_answer (stop_seen stop.entry) (Ok (task_seen task.entry))) old
        → BothTell old (S.files shelf.old) (FilesAfter (begun_dump (task_seen task.entry) (stop_seen stop.entry) ∷ [])) → BothTell old (S.files shelf.new) (WorkLeaves ws result) }
    ensures cause { Cause (S.fault_count shelf.old) (S.fault_count shelf.new) (end_of_phase result) }
    ensures named { (ws : List (List ℕ)) (asked : Asking) (old : Option (List File)) → asked_of ws ≡ Some asked → Contains (names_in (Some asked)) (stop_seen stop.entry).save
        → Answers ws (stop_answer (stop_seen stop.entry) (Ok (task_seen task.entry))) old → BothTell old (S.files shelf.old) (FilesAfter (begun_dump (task_seen task.entry) (stop_seen stop.entry) ∷ []))
        → IfFailed (NamesFaultAt ws old (S.files shelf.new) (S.last_fault shelf.new)) result }
    ensures words { IfErr result (λ s. SparesWords s) }
{
    let StopEnd {
        violations,
        reached,
    } = end;
    match reached {
        Reached::Stop(moment) => {
            let done = StopDone {
                task,
                time: stop.time,
                violations,
            };
            save_moment(alloc, done, stop.save, &moment, shelf)
        }
        Reached::Spent(spent) => {
            let spent = Some(spent);
            let end = RunEnd { violations, spent };
            Ok(Done::Run(RunDone { task, end }))
        }
    }
}

// Runs a task up to its stop, which is before its end, writes the dump, and saves what it came to.
fn stop_task<'a, S: Shelf>(
    alloc: Global,
    task: Task<'a>,
    stop: run_words::Stop<'a>,
    shelf: &mut S,
) -> Result<Done<'a>, Stop<'a>>
    requires applied { IsApplied task.circuit (stimulus_seen task.input) }
    requires ranges { (1 ≤ task.rounds) × (1 ≤ task.wheel) × (task.wheel ≤ 1048576) }
    requires before { stop.time < task.input.end }
    ensures left { (ws : List (List ℕ)) (old : Option (List File)) → Answers ws (stop_answer (stop_seen stop.entry) (Ok (task_seen task.entry))) old → S.files shelf.old ≡ old → BothTell old (S.files shelf.new) (WorkLeaves ws result) }
    ensures cause { Cause (S.fault_count shelf.old) (S.fault_count shelf.new) (end_of_phase result) }
    ensures named { (ws : List (List ℕ)) (asked : Asking) (old : Option (List File)) → asked_of ws ≡ Some asked → Contains (names_in (Some asked)) task.entry.vcd.now → Contains (names_in (Some asked)) (stop_seen stop.entry).save
        → Answers ws (stop_answer (stop_seen stop.entry) (Ok (task_seen task.entry))) old → S.files shelf.old ≡ old → IfFailed (NamesFaultAt ws old (S.files shelf.new) (S.last_fault shelf.new)) result }
    ensures words { IfErr result (λ s. SparesWords s) }
{
    match stop_and_dump(
        alloc,
        &task.circuit,
        &task.input,
        stop.time,
        task.rounds,
        task.wheel,
        task.vcd,
        shelf,
    ) {
        Ok(end) => end_stop(alloc, task, stop, end, shelf),
        Err(ShelfError::Failed) => Err(Stop::Failed),
        Err(ShelfError::NoMemory) => Err(Stop::NoMemory),
    }
}

// Reads what a command names, and runs it up to its stop, or whole where that isn't before the end.
fn run_stopped<'a, S: Shelf>(
    alloc: Global,
    command: &Command<'a>,
    stop: run_words::Stop<'a>,
    shelf: &mut S,
) -> Result<Done<'a>, Stop<'a>>
    requires ranges { (1 ≤ command.now.rounds) × (1 ≤ command.now.wheel) × (command.now.wheel ≤ 1048576) }
    requires some { 0 < length command.now.design.netlists.items }
    ensures left { (ws : List (List ℕ)) → asked_of ws ≡ Some (a_stop (command_seen command.now) (stop_seen stop.entry))
        → BothTell (S.files shelf.old) (S.files shelf.new) (WorkLeaves ws result) }
    ensures cause { Cause (S.fault_count shelf.old) (S.fault_count shelf.new) (end_of_phase result) }
    ensures named { (ws : List (List ℕ)) → asked_of ws ≡ Some (a_stop (command_seen command.now) (stop_seen stop.entry))
        → IfFailed (NamesFaultAt ws (S.files shelf.old) (S.files shelf.new) (S.last_fault shelf.new)) result }
    ensures words { IfErr result (λ s. SparesWords s) }
{
    let task = task_of(alloc, command, shelf)?;
    if stop.time < task.input.end {
        stop_task(alloc, task, stop, shelf)
    } else {
        run_task(alloc, task, shelf)
    }
}

// Reads what a command names and the moment that was saved, runs the rest, and writes the rest of the dump.
fn run_rest<'a, S: Shelf>(
    alloc: Global,
    command: &Command<'a>,
    state: &'a str,
    shelf: &mut S,
) -> Result<Done<'a>, Stop<'a>>
    requires ranges { (1 ≤ command.now.rounds) × (1 ≤ command.now.wheel) × (command.now.wheel ≤ 1048576) }
    requires some { 0 < length command.now.design.netlists.items }
    ensures left { (ws : List (List ℕ)) → asked_of ws ≡ Some (a_rest (command_seen command.now) state.now)
        → BothTell (S.files shelf.old) (S.files shelf.new) (WorkLeaves ws result) }
    ensures sound { (files : List File) (task : TheTask) → S.files shelf.old ≡ Some files → CommandOutcome (command_seen command.now) files (Ok task) → UnlessCut (IsSound task) result }
    ensures cause { Cause (S.fault_count shelf.old) (S.fault_count shelf.new) (end_of_phase result) }
    ensures named { (ws : List (List ℕ)) → asked_of ws ≡ Some (a_rest (command_seen command.now) state.now)
        → IfFailed (NamesFaultAt ws (S.files shelf.old) (S.files shelf.new) (S.last_fault shelf.new)) result }
    ensures words { IfErr result (λ s. SparesWords s) }
{
    let rest = rest_of(alloc, command, state, shelf)?;
    match resume_and_dump(
        alloc,
        &rest.task.circuit,
        &rest.task.input,
        &rest.moment,
        rest.task.rounds,
        rest.task.wheel,
        rest.task.vcd,
        shelf,
    ) {
        Ok(end) => Ok(Done::Run(RunDone {
            task: rest.task,
            end,
        })),
        Err(ShelfError::Failed) => Err(Stop::Failed),
        Err(ShelfError::NoMemory) => Err(Stop::NoMemory),
    }
}

// Reads a design, and writes its delays to a file.
fn write_delays<'a, S: Shelf>(
    alloc: Global,
    writing: &Writing<'a>,
    shelf: &mut S,
) -> Result<Done<'a>, Stop<'a>>
    requires some { 0 < length writing.now.design.netlists.items }
    ensures left { (ws : List (List ℕ)) → asked_of ws ≡ Some (a_writing (writing_seen writing.now))
        → BothTell (S.files shelf.old) (S.files shelf.new) (WorkLeaves ws result) }
    ensures begun { LeavesDelays (writing_seen writing.now).out result (S.files shelf.old) (S.files shelf.new) }
    ensures cause { Cause (S.fault_count shelf.old) (S.fault_count shelf.new) (end_of_phase result) }
    ensures named { (ws : List (List ℕ)) → asked_of ws ≡ Some (a_writing (writing_seen writing.now))
        → IfFailed (NamesFaultAt ws (S.files shelf.old) (S.files shelf.new) (S.last_fault shelf.new)) result }
    ensures words { IfErr result (λ s. SparesWords s) }
{
    let written = written_of(alloc, writing, shelf)?;
    let report = written_report(alloc, &written.annotated)?;
    match make_file(shelf, writing.out, &written.text) {
        Ok(()) => Ok(Done::Writing(WritingDone { report })),
        Err(ShelfError::Failed) => Err(Stop::Failed),
        Err(ShelfError::NoMemory) => Err(Stop::NoMemory),
    }
}

// Reads a design, and finds its settle bounds.
fn find_bounds<'a, S: Shelf>(
    alloc: Global,
    design: &Design<'a>,
    shelf: &mut S,
) -> Result<Done<'a>, Stop<'a>>
    requires some { 0 < length design.now.netlists.items }
    ensures left { (ws : List (List ℕ)) → asked_of ws ≡ Some (the_bounds (design_seen design.now))
        → BothTell (S.files shelf.old) (S.files shelf.new) (WorkLeaves ws result) }
    ensures cause { Cause (S.fault_count shelf.old) (S.fault_count shelf.new) (end_of_phase result) }
    ensures named { (ws : List (List ℕ)) → asked_of ws ≡ Some (the_bounds (design_seen design.now))
        → IfFailed (NamesFaultAt ws (S.files shelf.old) (S.files shelf.new) (S.last_fault shelf.new)) result }
    ensures words { IfErr result (λ s. SparesWords s) }
{
    let annotated = annotated_of(alloc, design, shelf)?;
    let found = bounds_of(alloc, &annotated.circuit)?;
    Ok(Done::Bounds(found))
}

// Makes the generated case of so many stages, and runs it.
fn run_case<'a>(alloc: Global, stages: u32) -> Result<Done<'a>, Stop<'a>>
    ensures left { (ws : List (List ℕ)) (files : List File) → asked_of ws ≡ Some (a_case stages) → WorkLeaves ws result files files }
    ensures works { NeverFails result }
    ensures words { IfErr result (λ s. SparesWords s) }
{
    let task = case_task(alloc, stages)?;
    let end = run_quietly(alloc, &task.circuit, &task.input, task.rounds, task.wheel)?;
    Ok(Done::Case(CaseDone { stages, task, end }))
}

/// Does what the words ask for: reads what a command names, runs it, whole, up to a stop or from a saved moment on, and
/// writes the value change dump, and at a stop the save; or reads a design, and writes its delays, or finds its settle
/// bounds; or makes the generated case and runs it, for which the shelf isn't called.
pub fn work<'a, S: Shelf>(
    alloc: Global,
    words: &'a [String],
    shelf: &mut S,
) -> Result<Done<'a>, Stop<'a>>
    ensures left { BothTell (S.files shelf.old) (S.files shelf.new) (WorkLeaves (map (λ w. string_bytes w) words.now) result) }
    ensures begun { (w : TheWriting) → asked_of (map (λ w. string_bytes w) words.now) ≡ Some (a_writing w) → LeavesDelays w.out result (S.files shelf.old) (S.files shelf.new) }
    ensures sound { (files : List File) (c : TheCommand) (state : List ℕ) (task : TheTask) → S.files shelf.old ≡ Some files → asked_of (map (λ w. string_bytes w) words.now) ≡ Some (a_rest c state) → CommandOutcome c files (Ok task) → UnlessCut (IsSound task) result }
    ensures cause { Cause (S.fault_count shelf.old) (S.fault_count shelf.new) (end_of_phase result) }
    ensures named { IfFailed (NamesFaultAt (map (λ w. string_bytes w) words.now) (S.files shelf.old) (S.files shelf.new) (S.last_fault shelf.new)) result }
    ensures words { StopWords (asked_of (map (λ w. string_bytes w) words.now)) (λ _ _. Unit {0}) result }
{
    match words_phase(alloc, words)? {
        Asked::Run(command) => run_command(alloc, &command, shelf),
        Asked::Stop(command, stop) => run_stopped(alloc, &command, stop, shelf),
        Asked::Rest(command, state) => run_rest(alloc, &command, state, shelf),
        Asked::Writing(writing) => write_delays(alloc, &writing, shelf),
        Asked::Bounds(design) => find_bounds(alloc, &design, shelf),
        Asked::Case(stages) => run_case(alloc, stages),
    }
}
