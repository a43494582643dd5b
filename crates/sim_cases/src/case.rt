// A netlist, what is applied to its inputs, and its run.
ghost use Rattle.std.specs.Prelude.{◌≡◌, ◌<◌};

use crate::lines::Lines;
use pulse_list::PlainAgenda;
use sg_circuit::Circuit;
use sg_delay::Corner;
use sg_io::MemoryShelf;
use sg_steps::Steps;
use sg_text::Place;
use sim_rounds::{Finished, Sim};
use sim_times::SimEnd;
use std::alloc::Global;
use std::marker::Brand;
use std::sync::ledger::{Blank, Ledger};
use stim_read::read_stim;
use time_checks::{Part, Violation};
use vl_elab::elaborate;
use vl_lex::lex;
use vl_parse::parse;

/// No time needs more rounds than these, where it ends.
const ROUNDS: u32 = 10;

/// A netlist, and its stimulus.
#[derive(Debug, Drop)]
pub struct Case {
    title: String,
    netlist: String,
    stimulus: String,
    is_read: bool,
}

fn circuit_of(alloc: Global, text: &str) -> anyhow::Result<Circuit> {
    let mut bytes = Vec::new(alloc);
    bytes.extend_from_slice(text.as_bytes())?;
    let files = [bytes];
    let tokens = lex(alloc, &files)?;
    let end = Place {
        file: 0,
        byte: text.len() as u64,
    };
    let Ok(source) = parse(alloc, &tokens, end) else {
        anyhow::bail!("no netlist");
    };
    match elaborate(alloc, &source, None, Corner::Typ) {
        Ok(circuit) => Ok(circuit),
        Err(_) => anyhow::bail!("no circuit"),
    }
}

fn part_name(part: Part) -> &'static str {
    match part {
        Part::Setup => "setup",
        Part::Hold => "hold",
        Part::Recovery => "recovery",
        Part::Removal => "removal",
        Part::Width => "width",
        Part::Period => "period",
        Part::Skew => "skew",
    }
}

// A line for each violation: the check, the part, the times of the reference and of the data, and the limit.
fn show_violations(out: &mut String, violations: &[Violation]) -> anyhow::Result<()> {
    for violation in violations {
        let check = violation.check;
        let part = part_name(violation.part);
        let refer = violation.refer_time;
        let datum = violation.datum_time;
        let limit = violation.limit;
        writeln!(
            out,
            "violation {check} {part} {refer} {datum} limit {limit}"
        )?;
    }
    Ok(())
}

// A line where the run ended before its end.
fn show_end(out: &mut String, end: Result<(), SimEnd>) -> anyhow::Result<()> {
    match end {
        Ok(()) => Ok(()),
        Err(SimEnd::RoundsSpent { time, net }) => {
            writeln!(out, "rounds spent at {time} on {net}")?;
            Ok(())
        }
        Err(SimEnd::WatchFailed | SimEnd::NoMemory) => anyhow::bail!("no end"),
    }
}

impl Case {
    /// Of nothing.
    pub fn new(alloc: Global) -> Case {
        Case {
            title: String::new(alloc),
            netlist: String::new(alloc),
            stimulus: String::new(alloc),
            is_read: false,
        }
    }

    /// Of a title.
    pub fn of(alloc: Global, title: &str) -> anyhow::Result<Case> {
        let mut case = Case::new(alloc);
        case.title.push_str(title)?;
        Ok(case)
    }

    /// Adds a line of its netlist, or of its stimulus where the netlist is read.
    pub fn add(&mut self, line: &str) -> anyhow::Result<()> {
        if line == "stimulus" {
            self.is_read = true;
        } else if self.is_read {
            writeln!(self.stimulus, "{line}")?;
        } else {
            writeln!(self.netlist, "{line}")?;
        }
        Ok(())
    }

    // Its run, and the lines of the calls.
    fn run<L: Ledger>(
        &self,
        alloc: Global,
        circuit: &Circuit,
        blank: Blank,
    ) -> anyhow::Result<(Finished, String)>
        requires name { blank.name ≡ L.name }
        requires parts { blank.parts ≡ L.parts }
        requires some { 0 < blank.parts }
    {
        let Ok(stimulus) = read_stim(alloc, self.stimulus.as_bytes(), circuit) else {
            anyhow::bail!("no stimulus");
        };
        if !stimulus.fits(circuit) {
            anyhow::bail!("no stimulus of the circuit");
        }
        let agenda = PlainAgenda::new(alloc, circuit.parts().elements.len() as u32)?;
        let sim = Sim::new(alloc, circuit, agenda)?;
        let mut steps = Steps::<L>::new(blank);
        let mut shelf = MemoryShelf::new(alloc);
        let mut lines = Lines {
            nets: &circuit.parts().nets,
            text: String::new(alloc),
        };
        let finished = sim.run(&stimulus, ROUNDS, &mut shelf, &mut lines, &mut steps);
        Ok((finished, lines.text))
    }

    /// Adds the lines of its run to a text.
    pub fn show(&self, alloc: Global, out: &mut String) -> anyhow::Result<()> {
        if self.title.is_empty() {
            return Ok(());
        }
        let circuit = circuit_of(alloc, &self.netlist)?;
        let (finished, text) = self.run::<Brand>(alloc, &circuit, Blank::new(1))?;
        let title = &self.title;
        let evaluations = finished.tally.evaluations;
        let last = finished.tally.last;
        write!(out, "{title}\n{text}")?;
        show_violations(out, &finished.tally.violations)?;
        show_end(out, finished.end)?;
        write!(out, "evaluations {evaluations}, last {last}\n\n")?;
        Ok(())
    }
}
