// A case: the files that are held, the calls that fail, and the words of a command line.
use sg_io::{MemoryShelf, MemorySink};
use signoff_top::{Status, top};
use std::alloc::Global;

#[derive(Debug, Drop)]
struct File {
    name: String,
    text: String,
}

// A call that fails, by its number, and how many bytes it takes before.
#[derive(Clone, Copy, Debug)]
struct Failing {
    call: u64,
    taken: u64,
}

/// Files, words, the calls of the shelf and of the report that fail, and the name of the file that a run may make; or that of a file
/// of which each front is tried.
#[derive(Debug, Drop)]
pub struct Case {
    title: String,
    files: Vec<File>,
    words: Vec<String>,
    shelf_failing: Vec<Failing>,
    report_failing: Vec<Failing>,
    made: Option<String>,
    cut: Option<String>,
}

fn failing_of(numbers: &str) -> anyhow::Result<Failing> {
    let (call, taken) = numbers.split_once(' ').unwrap_or((numbers, "0"));
    Ok(Failing {
        call: call.parse()?,
        taken: taken.parse()?,
    })
}

// A text, with a mark behind it where it doesn't end with a line.
fn show_text(out: &mut String, bytes: &[u8]) -> anyhow::Result<()> {
    out.push_str(std::str::from_utf8(bytes).unwrap_or("?"))?;
    if !matches!(bytes, [] | [.., b'\n']) {
        out.push_str("‖\n")?;
    }
    Ok(())
}

// Runs the program. What its clauses say isn't looked at here.
fn status_of(
    alloc: Global,
    words: &[String],
    shelf: &mut MemoryShelf,
    report: &mut MemorySink,
) -> Status {
    top(alloc, words, shelf, report)
}

impl Case {
    /// Without title, files and words.
    pub fn new(alloc: Global) -> Case {
        Case {
            title: String::new(alloc),
            files: Vec::new(alloc),
            words: Vec::new(alloc),
            shelf_failing: Vec::new(alloc),
            report_failing: Vec::new(alloc),
            made: None,
            cut: None,
        }
    }

    /// Of a title.
    pub fn of(alloc: Global, title: &str) -> anyhow::Result<Case> {
        let mut case = Case::new(alloc);
        case.title.push_str(title)?;
        Ok(case)
    }

    /// Adds a line of its description.
    pub fn add(&mut self, alloc: Global, line: &str) -> anyhow::Result<()> {
        match line.split_once(' ') {
            Some(("file", name)) => self.files.push(File {
                name: String::from_str(alloc, name)?,
                text: String::new(alloc),
            })?,
            Some(("fail", numbers)) => self.shelf_failing.push(failing_of(numbers)?)?,
            Some(("fail_report", numbers)) => self.report_failing.push(failing_of(numbers)?)?,
            Some(("made", name)) => self.made = Some(String::from_str(alloc, name)?),
            Some(("cut", name)) => self.cut = Some(String::from_str(alloc, name)?),
            Some(("words", words)) => {
                for word in words.split(' ') {
                    self.words.push(String::from_str(alloc, word)?)?;
                }
            }
            _ => self.add_text(line)?,
        }
        Ok(())
    }

    // Adds a line to the last file.
    fn add_text(&mut self, line: &str) -> anyhow::Result<()> {
        let Some(file) = self.files.last_mut() else {
            return Ok(());
        };
        if line == "open" {
            let _ = file.text.pop();
        } else {
            writeln!(file.text, "{line}")?;
        }
        Ok(())
    }

    fn shelf(&self, alloc: Global) -> anyhow::Result<MemoryShelf> {
        let mut shelf = MemoryShelf::new(alloc);
        for file in &self.files {
            shelf.hold(&file.name, file.text.as_bytes())?;
        }
        for failing in &self.shelf_failing {
            shelf.fail_at(failing.call, failing.taken)?;
        }
        Ok(shelf)
    }

    fn report(&self, alloc: Global) -> anyhow::Result<MemorySink> {
        let mut report = MemorySink::new(alloc);
        for failing in &self.report_failing {
            report.fail_at(failing.call, failing.taken)?;
        }
        Ok(report)
    }

    // Whether a run has an answer where a file has its first bytes alone: a report of whole lines, and no fault or want of memory.
    fn is_answered(&self, alloc: Global, name: &str, front: usize) -> anyhow::Result<bool> {
        let mut shelf = MemoryShelf::new(alloc);
        for file in &self.files {
            let bytes = file.text.as_bytes();
            let taken = if file.name.as_str() == name {
                front.min(bytes.len())
            } else {
                bytes.len()
            };
            shelf.hold(&file.name, &bytes[..taken])?;
        }
        let mut report = MemorySink::new(alloc);
        let status = status_of(alloc, &self.words, &mut shelf, &mut report);
        let is_told = matches!(report.bytes(), [.., b'\n']);
        Ok(is_told && !matches!(status, Status::Fault | Status::NoMemory))
    }

    // Tries each front of a file, and adds of how many there was an answer.
    fn show_fronts(&self, alloc: Global, name: &str, out: &mut String) -> anyhow::Result<()> {
        for file in &self.files {
            if file.name.as_str() == name {
                let fronts = file.text.len();
                let mut answered = 0_u64;
                for front in 0..fronts {
                    if self.is_answered(alloc, name, front)? {
                        answered = answered.saturating_add(1);
                    }
                }
                writeln!(out, "{answered} of {fronts} fronts of {name} answered")?;
            }
        }
        Ok(())
    }

    /// Runs it, and adds what came to a text.
    pub fn show(&self, alloc: Global, out: &mut String) -> anyhow::Result<()> {
        if self.title.is_empty() {
            return Ok(());
        }
        let title = &self.title;
        writeln!(out, "case {title}")?;
        if let Some(name) = &self.cut {
            return self.show_fronts(alloc, name, out);
        }
        let mut shelf = self.shelf(alloc)?;
        let mut report = self.report(alloc)?;
        let status = status_of(alloc, &self.words, &mut shelf, &mut report).code();
        writeln!(out, "status {status}")?;
        show_text(out, report.bytes())?;
        if let Some(name) = &self.made {
            match shelf.bytes(name) {
                Some(bytes) => {
                    writeln!(out, "file {name}")?;
                    show_text(out, bytes)?;
                }
                None => writeln!(out, "no file {name}")?,
            }
        }
        Ok(())
    }
}
