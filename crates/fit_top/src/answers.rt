// The answer to what is asked.
ghost use Rattle.std.specs.Prelude.{◌≡◌, ℕ, Bool, List, IfOk, Ok, Some, false, map, string_bytes};
ghost use Rattle.std.specs.List.{list_any};
ghost use Rattle.sg_io.specs.Faults.{Cause};
ghost use Rattle.sg_io.specs.Files.{File};
ghost use Rattle.fit_words.specs.Words.{inputs_of as words_inputs, made_name};
ghost use Rattle.fit_words.specs.WordsSeen.{asked_seen};
ghost use Rattle.vl_lex.specs.Seen.{texts};
ghost use Rattle.fit_changes.specs.Lines.{line_seen};
ghost use Rattle.fit_changes.specs.Report.{first_told};
ghost use Rattle.fit_changes.specs.Rounds.{written};
ghost use Rattle.fit_inside.specs.Inside.{IsAccepted};
ghost use Rattle.fit_sdf.specs.Counts.{count_seen};
ghost use Rattle.fit_top.specs.Answer.{IsAnswerFor, IsFittedFor, IsTextAnswer, Meeting, Meets, all_lines, changed_answer, files_of, fitted_answer, missing_line, refusal, status_of, usage_line};
ghost use Rattle.fit_top.specs.Including.{FailsReading};
ghost use Rattle.fit_top.specs.Stops.{NeverFolder, end_of};
ghost use Rattle.fit_top.specs.Work.{answer_seen, input_seen};

use crate::annotating::{SdfFiles, fit_files};
use crate::folders::Folders;
use crate::including::fit;
use crate::inputs::{Input, read_files, texts_of};
use crate::lines::{USAGE, line_of, unfit_lines};
use crate::making::{Made, add_files};
use crate::status::Status;
use crate::stop::Stop;
use crate::texts::{report_text, told_text, with_lines, written_texts};
use fit_changes::{Line, are_told};
use fit_netlist::Fitted;
use fit_words::{Asked, inputs_of, made_name};
use sg_io::Shelf;
use sg_text::NoMemory;
use std::alloc::Global;

/// What the program answers: its status, the files that it makes, and the report.
#[derive(Drop)]
pub struct Answer {
    pub status: Status,
    pub made: Vec<Made>,
    pub report: Vec<u8>,
}

// Nothing is made.
fn refusal(alloc: Global, status: Status, report: Vec<u8>) -> Answer
    ensures { answer_seen result ≡ refusal status report.items }
{
    Answer {
        status,
        made: Vec::new(alloc),
        report,
    }
}

/// The words are refused, or a file that would be made is one that is read.
pub fn usage_answer(alloc: Global) -> Result<Answer, NoMemory>
    ensures { IfOk result (λ a. answer_seen a ≡ refusal Status.Usage usage_line) }
{
    let line = line_of(alloc, USAGE, "")?;
    Ok(refusal(alloc, Status::Usage, line))
}

fn missing_answer(alloc: Global, name: &str) -> Result<Answer, NoMemory>
    ensures { IfOk result (λ a. answer_seen a ≡ refusal Status.Missing (missing_line name.now)) }
{
    let line = line_of(alloc, "missing: ", name)?;
    Ok(refusal(alloc, Status::Missing, line))
}

fn status_of(lines: &[Line]) -> Status
    ensures { result ≡ status_of (map line_seen lines.now) }
{
    if are_told(lines) {
        Status::Told
    } else {
        Status::Same
    }
}

// All files are written.
fn fitted_answer(
    alloc: Global,
    asked: &Asked<'_>,
    texts: &[Vec<u8>],
    lines: &[Line],
    sdf: &SdfFiles<'_>,
) -> Result<Answer, NoMemory>
    ensures { IfOk result (λ a. answer_seen a ≡ fitted_answer (asked_seen asked.now) (map (λ t. t.items) texts.now) (written sdf.now.list.items) (map line_seen lines.now) (map count_seen sdf.now.counts.items)) }
{
    let names = inputs_of(alloc, asked)?;
    let report = report_text(alloc, &names, lines, &sdf.counts)?;
    let changed = written_texts(alloc, &sdf.list)?;
    let mut made = Vec::new(alloc);
    add_files(alloc, asked.out, &asked.netlists, texts, &mut made)?;
    add_files(alloc, asked.out, &asked.sdf, &changed, &mut made)?;
    Ok(Answer {
        status: status_of(lines),
        made,
        report,
    })
}

// Nothing is written, since this would be told.
fn strict_answer(alloc: Global, asked: &Asked<'_>, lines: &[Line]) -> Result<Answer, NoMemory>
    ensures { IfOk result (λ a. answer_seen a ≡ refusal Status.Told (first_told (words_inputs (asked_seen asked.now)) (map line_seen lines.now))) }
{
    let names = inputs_of(alloc, asked)?;
    let line = told_text(alloc, &names, lines)?;
    Ok(refusal(alloc, Status::Told, line))
}

fn changed_answer(
    alloc: Global,
    asked: &Asked<'_>,
    texts: &[Vec<u8>],
    lines: &[Line],
    sdf: &SdfFiles<'_>,
) -> Result<Answer, NoMemory>
    ensures { IfOk result (λ a. answer_seen a ≡ changed_answer (asked_seen asked.now) (map (λ t. t.items) texts.now) (written sdf.now.list.items) (map line_seen lines.now) (map count_seen sdf.now.counts.items)) }
{
    if asked.is_strict && are_told(lines) {
        return strict_answer(alloc, asked, lines);
    }
    fitted_answer(alloc, asked, texts, lines, sdf)
}

// All SDF files are taken.
fn right_answer(
    alloc: Global,
    asked: &Asked<'_>,
    fitted: Fitted,
    sdf: &SdfFiles<'_>,
) -> Result<Answer, NoMemory>
    ensures { IfOk result (λ a. answer_seen a ≡ changed_answer (asked_seen asked.now) (texts fitted.texts.items) (written sdf.now.list.items)
        (all_lines (asked_seen asked.now) (map line_seen fitted.lines.items) sdf.now.list.items) (map count_seen sdf.now.counts.items)) }
{
    let Fitted { texts, lines } = fitted;
    let lines = with_lines(alloc, lines, asked.netlists.len(), &sdf.list)?;
    changed_answer(alloc, asked, &texts, &lines, sdf)
}

// The answer for a netlist that is fitted.
fn sdf_answer(
    alloc: Global,
    asked: &Asked<'_>,
    fitted: Fitted,
    sdf: &[Input<'_>],
) -> Result<Answer, NoMemory>
    requires { IsAccepted (texts fitted.texts.items) }
    ensures { IfOk result (λ a. (read : List (List ℕ)) → IsFittedFor (asked_seen asked.now) read (texts fitted.texts.items) (map line_seen fitted.lines.items)
        → IsTextAnswer (asked_seen asked.now) read (map input_seen sdf.now) (answer_seen a)) }
{
    let files = fit_files(alloc, &fitted.texts, &fitted.lines, sdf, asked.top)?;
    if files.faults.len() == 0 {
        right_answer(alloc, asked, fitted, &files)
    } else {
        Ok(refusal(alloc, Status::Sdf, files.faults))
    }
}

// The answer for the texts of a netlist and of SDF files.
fn text_answer<'a, S: Shelf>(
    alloc: Global,
    asked: &Asked<'_>,
    texts: &[Vec<u8>],
    sdf: Vec<Input<'_>>,
    shelf: &mut S,
) -> Result<Answer, Stop<'a>>
    ensures right { IfOk result (λ a. IsTextAnswer (asked_seen asked.now) (map (λ t. t.items) texts.now) (map input_seen sdf.entry.items) (answer_seen a)) }
    ensures held { S.files shelf.new ≡ S.files shelf.old }
    ensures cause { Cause (S.fault_count shelf.old) (S.fault_count shelf.new) (end_of result) }
    ensures named { FailsReading (asked_seen asked.now) (S.last_fault shelf.new) result }
    ensures folders { NeverFolder result }
{
    let outcome = fit(alloc, asked, texts, shelf)?;
    match outcome {
        Ok(fitted) => Ok(sdf_answer(alloc, asked, fitted, &sdf)?),
        Err(places) => {
            let lines = unfit_lines(alloc, &asked.netlists, &places)?;
            Ok(refusal(alloc, Status::Netlist, lines))
        }
    }
}

// The answer where the netlist's files are there.
fn answer_with<'a, S: Shelf>(
    alloc: Global,
    asked: &Asked<'a>,
    netlists: Vec<Input<'a>>,
    shelf: &mut S,
) -> Result<Answer, Stop<'a>>
    ensures right { (meeting : Meeting) (held : List File) → S.files shelf.old ≡ Some held → Meets meeting (asked_seen asked.now) false
        → files_of (asked_seen asked.now).netlists held ≡ Ok (map input_seen netlists.entry.items)
        → IfOk result (λ a. IsAnswerFor (asked_seen asked.now) meeting held (answer_seen a)) }
    ensures held { S.files shelf.new ≡ S.files shelf.old }
    ensures cause { Cause (S.fault_count shelf.old) (S.fault_count shelf.new) (end_of result) }
    ensures named { FailsReading (asked_seen asked.now) (S.last_fault shelf.new) result }
    ensures folders { NeverFolder result }
{
    match read_files(alloc, shelf, &asked.sdf)? {
        Ok(sdf) => {
            let texts = texts_of(alloc, netlists)?;
            text_answer(alloc, asked, &texts, sdf, shelf)
        }
        Err(name) => Ok(missing_answer(alloc, name)?),
    }
}

// The answer where no file that would be made is one that is read.
fn answer_apart<'a, S: Shelf>(
    alloc: Global,
    asked: &Asked<'a>,
    shelf: &mut S,
) -> Result<Answer, Stop<'a>>
    ensures right { (meeting : Meeting) (held : List File) → S.files shelf.old ≡ Some held → Meets meeting (asked_seen asked.now) false
        → IfOk result (λ a. IsAnswerFor (asked_seen asked.now) meeting held (answer_seen a)) }
    ensures held { S.files shelf.new ≡ S.files shelf.old }
    ensures cause { Cause (S.fault_count shelf.old) (S.fault_count shelf.new) (end_of result) }
    ensures named { FailsReading (asked_seen asked.now) (S.last_fault shelf.new) result }
    ensures folders { NeverFolder result }
{
    match read_files(alloc, shelf, &asked.netlists)? {
        Ok(netlists) => answer_with(alloc, asked, netlists, shelf),
        Err(name) => Ok(missing_answer(alloc, name)?),
    }
}

// The names of the files that would be made.
fn made_names(alloc: Global, folder: &str, inputs: &[&str]) -> Result<Vec<String>, NoMemory>
    ensures { IfOk result (λ names. map string_bytes names.items ≡ map (made_name folder.now) (map (λ n. n.now) inputs.now)) }
{
    let mut names = Vec::new(alloc);
    for input in inputs {
        names.push(made_name(alloc, folder, input)?)?;
    }
    Ok(names)
}

// Whether a file is one of these.
fn is_met<F: Folders>(folders: &F, made: &str, inputs: &[&str]) -> bool
    ensures { (is_one : List ℕ → List ℕ → Bool) → F.meeting folders.now ≡ Some is_one → result ≡ list_any (is_one made.now) (map (λ n. n.now) inputs.now) }
{
    for input in inputs {
        if folders.is_one(made, input) {
            return true;
        }
    }
    false
}

fn are_met<F: Folders>(folders: &F, made: &[String], inputs: &[&str]) -> bool
    ensures { (is_one : List ℕ → List ℕ → Bool) → F.meeting folders.now ≡ Some is_one
        → result ≡ list_any (λ m. list_any (is_one m) (map (λ n. n.now) inputs.now)) (map string_bytes made.now) }
{
    for name in made {
        if is_met(folders, name.as_str(), inputs) {
            return true;
        }
    }
    false
}

// Whether a file that would be made is one that is read.
fn meets<F: Folders>(alloc: Global, asked: &Asked<'_>, folders: &F) -> Result<bool, NoMemory>
    ensures { IfOk result (λ met. Meets (F.meeting folders.now) (asked_seen asked.now) met) }
{
    let inputs = inputs_of(alloc, asked)?;
    let made = made_names(alloc, asked.out, &inputs)?;
    Ok(are_met(folders, &made, &inputs))
}

/// The answer to what is asked.
pub fn answer_for<'a, S: Shelf, F: Folders>(
    alloc: Global,
    asked: &Asked<'a>,
    shelf: &mut S,
    folders: &F,
) -> Result<Answer, Stop<'a>>
    ensures right { (held : List File) → S.files shelf.old ≡ Some held
        → IfOk result (λ a. IsAnswerFor (asked_seen asked.now) (F.meeting folders.now) held (answer_seen a)) }
    ensures held { S.files shelf.new ≡ S.files shelf.old }
    ensures cause { Cause (S.fault_count shelf.old) (S.fault_count shelf.new) (end_of result) }
    ensures named { FailsReading (asked_seen asked.now) (S.last_fault shelf.new) result }
    ensures folders { NeverFolder result }
{
    if meets(alloc, asked, folders)? {
        return Ok(usage_answer(alloc)?);
    }
    answer_apart(alloc, asked, shelf)
}
