// What is told of changes.
use crate::changing::Reason;
use crate::including::included_name;
use crate::reader::{Reader, Tested};
use crate::sources::Source;
use crate::telling::push_origin;
use fit_changes::Rule;
use fit_macros::{Directive, Joint, behind, cut, definition_of, front, is_gap};
use sg_text::NoMemory;
use std::alloc::Global;

// What is longer isn't told in full.
const LONGEST: usize = 60;

/// Where a text comes from that is brought in: its file and line.
#[derive(Clone, Copy)]
pub struct Origin<'t> {
    pub file: &'t [u8],
    pub line: u64,
}

// A text on one line without comments, and cut off where it is long.
fn on_one_line(alloc: Global, text: &[u8]) -> Result<Vec<u8>, NoMemory> {
    let mut out = Joint::behind(alloc, b' ');
    let mut rest = text;
    while let [_, ..] = rest {
        let (class, piece) = front(rest);
        if out.len() > LONGEST {
            out.part();
            out.push(class, b"..")?;
            break;
        }
        if is_gap(class) {
            out.part();
        } else {
            out.push(class, piece)?;
        }
        rest = behind(rest, piece.len());
    }
    out.finish(b' ', 0)
}

// The rule by which a use gives way to what it stands for.
fn rule_of(directive: Option<Directive>, origin: Option<Origin<'_>>) -> Rule {
    match directive {
        None => match origin {
            Some(origin) if origin.file.is_empty() => Rule::Define,
            _ => Rule::Macro,
        },
        Some(Directive::Include) => Rule::Include,
        Some(Directive::LeftOut { told: true, .. }) => Rule::DelayMode,
        Some(Directive::LeftOut { .. }) => Rule::Directive,
        Some(_) => Rule::Macro,
    }
}

// How much of a use is shown: of a definition what stands before the macro's text.
fn shown_size(source: Source<'_, '_>, directive: Option<Directive>, size: usize) -> usize {
    let own = b"`define".len();
    match directive {
        Some(Directive::Define) => match definition_of(cut(source.rest, own).1) {
            Some(definition) => own.saturating_add(definition.head),
            None => size,
        },
        _ => size,
    }
}

fn word_before(directive: Option<Directive>) -> &'static str {
    match directive {
        None => "macro ",
        Some(_) => "",
    }
}

fn word_behind(directive: Option<Directive>) -> &'static str {
    match directive {
        None | Some(Directive::Include) => " expanded",
        Some(_) => " left out",
    }
}

impl<'t> Reader<'t> {
    /// Where the text comes from that stands for a use, if one does.
    pub fn origin_of(
        &self,
        source: Source<'t, '_>,
        directive: Option<Directive>,
        name: &'t [u8],
    ) -> Option<Origin<'t>> {
        if directive.is_none() {
            let found = self.macros.get(name)?;
            return Some(Origin {
                file: found.file,
                line: found.line,
            });
        }
        let (name, _) = included_name(cut(source.rest, name.len().saturating_add(1)).1)?;
        let found = self.included(source.file, name)?.found.as_ref()?;
        Some(Origin {
            file: &found.path,
            line: 1,
        })
    }

    /// Why so many bytes of a file, in some part, give way to what they stand for.
    pub fn reason_of(
        &self,
        source: Source<'t, '_>,
        directive: Option<Directive>,
        size: usize,
        origin: Option<Origin<'t>>,
        part: &[u8],
    ) -> Result<Reason, NoMemory> {
        let shown = shown_size(source, directive, size);
        let used = on_one_line(self.alloc, cut(source.rest, shown).0)?;
        let mut what = Vec::from_slice(self.alloc, word_before(directive).as_bytes())?;
        what.extend_from_slice(&used)?;
        if let Some(origin) = origin {
            if origin.file != source.file {
                push_origin(&mut what, origin.file, origin.line)?;
            }
        }
        what.extend_from_slice(word_behind(directive).as_bytes())?;
        self.reason(rule_of(directive, origin), what, part)
    }

    /// Why a directive of a branch changes, or the text behind it.
    pub fn reason_of_branch(
        &self,
        directive: &[u8],
        tested: Tested<'t>,
        before: &str,
        behind: &str,
    ) -> Result<Reason, NoMemory> {
        let mut what = Vec::from_slice(self.alloc, before.as_bytes())?;
        what.extend_from_slice(directive)?;
        if let Some(name) = tested.name {
            what.push(b' ')?;
            what.extend_from_slice(name)?;
        }
        what.extend_from_slice(behind.as_bytes())?;
        self.reason(Rule::Define, what, self.part.name)
    }

    /// A reason in a part.
    pub fn reason(&self, rule: Rule, what: Vec<u8>, part: &[u8]) -> Result<Reason, NoMemory> {
        let part = Vec::from_slice(self.alloc, part)?;
        Ok(Reason { rule, part, what })
    }
}
