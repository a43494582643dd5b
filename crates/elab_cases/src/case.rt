// A case: a netlist, and what is asked of it.
use crate::circuits::show_circuit;
use sg_delay::Corner;
use sg_text::{Place, Refused};
use std::alloc::Global;
use vl_elab::elaborate;
use vl_lex::lex;
use vl_parse::parse;

/// A netlist, and what is asked of it.
#[derive(Debug, Drop)]
pub struct Case {
    title: String,
    top: Option<String>,
    corner: Corner,
    text: String,
}

impl Case {
    /// Of nothing.
    pub fn new(alloc: Global) -> Case {
        Case {
            title: String::new(alloc),
            top: None,
            corner: Corner::Typ,
            text: String::new(alloc),
        }
    }

    /// Of the words behind `case`.
    pub fn of(alloc: Global, words: &str) -> anyhow::Result<Case> {
        let mut case = Case::new(alloc);
        for word in words.split(' ') {
            match word.split_once('=') {
                Some(("top", name)) => case.top = Some(String::from_str(alloc, name)?),
                Some(("corner", "min")) => case.corner = Corner::Min,
                Some(("corner", "max")) => case.corner = Corner::Max,
                _ => write!(case.title, "{word} ")?,
            }
        }
        Ok(case)
    }

    /// Adds a line to the netlist.
    pub fn add(&mut self, line: &str) -> anyhow::Result<()> {
        writeln!(self.text, "{line}")?;
        Ok(())
    }

    /// Adds what elaboration answers to a text.
    pub fn show(&self, alloc: Global, out: &mut String) -> anyhow::Result<()> {
        if self.title.is_empty() {
            return Ok(());
        }
        let title = self.title.trim();
        writeln!(out, "case {title}")?;
        let mut bytes = Vec::new(alloc);
        bytes.extend_from_slice(self.text.as_bytes())?;
        let files = [bytes];
        let tokens = lex(alloc, &files)?;
        let end = Place {
            file: 0,
            byte: self.text.len() as u64,
        };
        let Ok(source) = parse(alloc, &tokens, end) else {
            writeln!(out, "no netlist")?;
            return Ok(());
        };
        let top = self.top.as_ref().map(|name| name.as_bytes());
        match elaborate(alloc, &source, top, self.corner) {
            Ok(circuit) => show_circuit(&circuit, out)?,
            Err(Refused::Fault { kind, place }) => {
                let line = place.line_of(self.text.as_bytes());
                writeln!(out, "line {line}: {kind:?}")?;
            }
            Err(Refused::NoMemory) => anyhow::bail!("no memory"),
        }
        Ok(())
    }
}
