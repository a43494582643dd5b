// The answer to a question about a run.
ghost use Rattle.std.specs.Prelude.{◌≡◌, ◌++◌, ◌<◌, ◌^◌, All, IfOk, Some, length};
ghost use Rattle.sg_stimulus.specs.Applied.{IsApplied};
ghost use Rattle.sg_stimulus.specs.Seen.{stimulus_seen};
ghost use Rattle.wave_out.specs.Texts.{line};
ghost use Rattle.why_history.specs.Ends.{found_in};
ghost use Rattle.why_text.specs.Finding.{net_called};
ghost use Rattle.why_words.specs.WordsSeen.{question_seen};
ghost use Rattle.why_top.specs.Answer.{IsAnswerIn, IsChainAnswer, IsNetAnswer, IsViolationAnswer, TellsChain, TellsViolation, spent_answer, spent_by, told, unfound_answer};
ghost use Rattle.why_history.specs.Bounds.{IsBounded};
ghost use Rattle.why_top.specs.Seen.{IsInOrder, IsSoon, answer_seen, run_seen, task_seen, waveform_of};

use crate::runs::{Task, run_of};
use run_report::spent_text;
use sg_circuit::{Circuit, NetId};
use sg_text::NoMemory;
use signoff_phases::{Status, named_line};
use std::alloc::Global;
use why_causes::Trace;
use why_history::{Spent, Watched};
use why_text::{find_net, find_violation, net_causes, violation_causes};
use why_words::Question;

/// What the program answers: its status, and the report.
#[derive(Drop)]
pub struct Answer {
    pub status: Status,
    pub report: Vec<u8>,
}

// What is asked about isn't there.
fn unknown_answer(alloc: Global, what: &str, name: &str) -> Result<Answer, NoMemory>
    ensures { IfOk result (λ a. answer_seen a ≡ told Status.Usage (line (what.now ++ name.now))) }
{
    let report = named_line(alloc, what, name)?;
    Ok(Answer {
        status: Status::Usage,
        report,
    })
}

fn spent_answer(alloc: Global, circuit: &Circuit, spent: Spent) -> Result<Answer, NoMemory>
    ensures { IfOk result (λ a. answer_seen a ≡ spent_answer circuit.now (spent.time, Some spent.net)) }
{
    let report = spent_text(alloc, circuit, spent.time, spent.net)?;
    Ok(Answer {
        status: Status::Rounds,
        report,
    })
}

// The time that was spent, if that was at this time or before.
fn spent_by(time: u64, spent: Option<Spent>) -> Option<Spent>
    ensures { found_in result ≡ spent_by time (found_in spent) }
{
    match spent {
        Some(spent) => if spent.time <= time {
            Some(spent)
        } else {
            None
        },
        None => None,
    }
}

// The chain of causes of a net's last change up to a time.
fn told_chain(
    alloc: Global,
    circuit: &Circuit,
    run: &Watched,
    net: NetId,
    time: u64,
) -> Result<Answer, NoMemory>
    requires order { IsInOrder (length circuit.now.nets) (waveform_of run.now) }
    requires net { net < length circuit.now.nets }
    requires time { time < 2 ^ 63 }
    ensures { IfOk result (λ a. TellsChain circuit.now (run_seen run.now) net time (answer_seen a)) }
{
    let trace = Trace::new(alloc, &run.first, &run.events)?;
    let told = net_causes(alloc, circuit, &trace, &run.violations, net, time)?;
    Ok(Answer {
        status: Status::Clean,
        report: told.text,
    })
}

fn chain_answer(
    alloc: Global,
    circuit: &Circuit,
    run: &Watched,
    net: NetId,
    time: u64,
) -> Result<Answer, NoMemory>
    requires order { IsInOrder (length circuit.now.nets) (waveform_of run.now) }
    requires net { net < length circuit.now.nets }
    requires time { time < 2 ^ 63 }
    ensures { IfOk result (λ a. IsChainAnswer circuit.now (run_seen run.now) net time (spent_by time (run_seen run.now).spent) (answer_seen a)) }
{
    match spent_by(time, run.spent) {
        Some(spent) => spent_answer(alloc, circuit, spent),
        None => told_chain(alloc, circuit, run, net, time),
    }
}

// Of the net of a name.
fn net_answer(
    alloc: Global,
    task: &Task,
    rounds: u32,
    name: &str,
    time: u64,
) -> Result<Answer, NoMemory>
    requires rounds { 0 < rounds }
    requires applied { IsApplied task.now.circuit (stimulus_seen task.now.input) }
    requires time { time < 2 ^ 63 }
    ensures { IfOk result (λ a. IsNetAnswer (task_seen task.now) rounds name.now time (net_called task.now.circuit name.now) (answer_seen a)) }
{
    let Some(net) = find_net(alloc, &task.circuit, name.as_bytes())? else {
        return unknown_answer(alloc, "no net ", name);
    };
    let run = run_of(alloc, task, rounds)?;
    chain_answer(alloc, &task.circuit, &run, net, time)
}

// Where the violation of a place came from.
fn parts_answer(
    alloc: Global,
    circuit: &Circuit,
    run: &Watched,
    place: usize,
) -> Result<Answer, NoMemory>
    requires order { IsInOrder (length circuit.now.nets) (waveform_of run.now) }
    requires bounded { All (λ v. IsBounded circuit.now v) run.now.violations.items }
    requires place { place < length run.now.violations.items }
    ensures { IfOk result (λ a. TellsViolation circuit.now (run_seen run.now) place (answer_seen a)) }
{
    let trace = Trace::new(alloc, &run.first, &run.events)?;
    let violations = run.violations.as_slice();
    let report = violation_causes(alloc, circuit, &trace, violations, &violations[place])?;
    Ok(Answer {
        status: Status::Clean,
        report,
    })
}

// Of a violation that was not found.
fn unfound_answer(
    alloc: Global,
    circuit: &Circuit,
    spent: Option<Spent>,
    text: &str,
) -> Result<Answer, NoMemory>
    ensures { IfOk result (λ a. answer_seen a ≡ unfound_answer circuit.now text.now (found_in spent)) }
{
    match spent {
        Some(spent) => spent_answer(alloc, circuit, spent),
        None => unknown_answer(alloc, "no violation ", text),
    }
}

fn violation_answer(alloc: Global, task: &Task, rounds: u32, text: &str) -> Result<Answer, NoMemory>
    requires rounds { 0 < rounds }
    requires applied { IsApplied task.now.circuit (stimulus_seen task.now.input) }
    ensures { IfOk result (λ a. IsViolationAnswer (task_seen task.now) rounds text.now (answer_seen a)) }
{
    let run = run_of(alloc, task, rounds)?;
    match find_violation(alloc, &task.circuit, &run.violations, text.as_bytes())? {
        Some(place) => parts_answer(alloc, &task.circuit, &run, place),
        None => unfound_answer(alloc, &task.circuit, run.spent, text),
    }
}

/// The answer to a question about the run of a task, with at most so many rounds a time.
pub fn answer_in(
    alloc: Global,
    task: &Task,
    rounds: u32,
    question: Question<'_>,
) -> Result<Answer, NoMemory>
    requires rounds { 0 < rounds }
    requires applied { IsApplied task.now.circuit (stimulus_seen task.now.input) }
    requires time { IsSoon question }
    ensures { IfOk result (λ a. IsAnswerIn (task_seen task.now) rounds (question_seen question.entry) (answer_seen a)) }
{
    match question {
        Question::Net { name, time } => net_answer(alloc, task, rounds, name, time),
        Question::Violation(text) => violation_answer(alloc, task, rounds, text),
    }
}
