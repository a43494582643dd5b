// Entries as they are read.
use crate::conditions::{Condition, group_condition};
use crate::groups::{is_group, parts_of};
use crate::numbers::{Corners, is_value};
use crate::terms::{Term, term_of, word_of};
use sdf_lex::{Lexeme, Token};
use sdf_tree::Keyword;
use sg_text::NoMemory;
use std::alloc::Global;

/// For which paths an entry is.
#[derive(Drop)]
pub enum When {
    Always,
    If(Condition),
    Else,
}

/// An entry: its word, its ports, and its values, which may be followed by empty ones, or give way to limits.
#[derive(Drop)]
pub struct Draft<'t, 'a> {
    pub when: When,
    pub word: Keyword,
    pub terms: Vec<Term<'a>>,
    pub values: Vec<&'t [Token<'a>]>,
    pub empty_values: usize,
    pub limits: Option<Vec<Corners<'a>>>,
    pub stamp: Option<Condition>,
    pub check: Option<Condition>,
    /// Nothing is written of it.
    pub is_gone: bool,
}

fn copy_condition(
    alloc: Global,
    condition: &Option<Condition>,
) -> Result<Option<Condition>, NoMemory> {
    Ok(match condition {
        Some(condition) => Some(condition.copy(alloc)?),
        None => None,
    })
}

impl<'t, 'a> Draft<'t, 'a> {
    /// An entry of a word, without ports and values.
    pub fn new(alloc: Global, word: Keyword) -> Draft<'t, 'a> {
        Draft {
            when: When::Always,
            word,
            terms: Vec::new(alloc),
            values: Vec::new(alloc),
            empty_values: 0,
            limits: None,
            stamp: None,
            check: None,
            is_gone: false,
        }
    }

    /// The same with its values as they are read. Takes memory.
    pub fn copy(&self, alloc: Global) -> Result<Draft<'t, 'a>, NoMemory> {
        let mut made = Draft::new(alloc, self.word);
        made.when = match &self.when {
            When::Always => When::Always,
            When::If(condition) => When::If(condition.copy(alloc)?),
            When::Else => When::Else,
        };
        for term in &self.terms {
            made.terms.push(term.copy(alloc)?)?;
        }
        made.values = Vec::from_slice(alloc, &self.values)?;
        made.empty_values = self.empty_values;
        made.stamp = copy_condition(alloc, &self.stamp)?;
        made.check = copy_condition(alloc, &self.check)?;
        Ok(made)
    }
}

/// The word of an entry or of another group, if it is one of the grammar.
pub fn keyword_of(group: &[Token<'_>]) -> Option<Keyword> {
    if !is_group(group) {
        return None;
    }
    let token = group.get(1)?;
    word_of(token)
}

fn is_word(group: &[Token<'_>], word: &[u8]) -> bool {
    match group.get(1) {
        Some(token) => match token.lexeme {
            Lexeme::Word(bytes) => bytes.eq_ignore_ascii_case(word),
            _ => false,
        },
        None => false,
    }
}

// Adds a part behind the ports of an entry, and answers whether it may stand there.
fn add_value<'t, 'a>(
    alloc: Global,
    part: &'t [Token<'a>],
    draft: &mut Draft<'t, 'a>,
) -> Result<bool, NoMemory> {
    if is_word(part, b"SCOND") {
        draft.stamp = group_condition(alloc, part, 0)?;
        return Ok(draft.stamp.is_some());
    }
    if is_word(part, b"CCOND") {
        draft.check = group_condition(alloc, part, 0)?;
        return Ok(draft.check.is_some());
    }
    if is_value(part) || keyword_of(part).is_some() {
        draft.values.push(part)?;
        return Ok(true);
    }
    Ok(false)
}

fn add_part<'t, 'a>(
    alloc: Global,
    part: &'t [Token<'a>],
    draft: &mut Draft<'t, 'a>,
) -> Result<bool, NoMemory> {
    if draft.values.is_empty() && !is_value(part) {
        if let Some(term) = term_of(alloc, part)? {
            draft.terms.push(term)?;
            return Ok(true);
        }
    }
    add_value(alloc, part, draft)
}

// How many ports an entry of a word has.
fn has_terms(word: Keyword, terms: usize) -> bool {
    match word {
        Keyword::IoPath
        | Keyword::Interconnect
        | Keyword::Setup
        | Keyword::Hold
        | Keyword::Recovery
        | Keyword::Removal
        | Keyword::Skew
        | Keyword::SetupHold
        | Keyword::RecRem => terms == 2,
        Keyword::Port | Keyword::NetDelay | Keyword::Width | Keyword::Period => terms == 1,
        Keyword::Device => terms <= 1,
        Keyword::PathPulse | Keyword::PathPulsePercent => terms == 0 || terms == 2,
        _ => false,
    }
}

fn read_plain<'t, 'a>(
    alloc: Global,
    word: Keyword,
    group: &'t [Token<'a>],
) -> Result<Option<Draft<'t, 'a>>, NoMemory> {
    let mut draft = Draft::new(alloc, word);
    let parts = parts_of(alloc, group)?;
    for part in parts.iter().skip(1) {
        if !add_part(alloc, part, &mut draft)? {
            return Ok(None);
        }
    }
    if has_terms(word, draft.terms.len()) {
        Ok(Some(draft))
    } else {
        Ok(None)
    }
}

// The path in the group of a COND or CONDELSE.
fn inner_path<'t, 'a>(
    alloc: Global,
    group: &'t [Token<'a>],
) -> Result<Option<(usize, Draft<'t, 'a>)>, NoMemory> {
    let parts = parts_of(alloc, group)?;
    let Some(last) = parts.last().copied() else {
        return Ok(None);
    };
    match keyword_of(last) {
        Some(Keyword::IoPath) => match read_plain(alloc, Keyword::IoPath, last)? {
            Some(draft) => Ok(Some((last.len(), draft))),
            None => Ok(None),
        },
        _ => Ok(None),
    }
}

fn read_conditional<'t, 'a>(
    alloc: Global,
    group: &'t [Token<'a>],
) -> Result<Option<Draft<'t, 'a>>, NoMemory> {
    let Some((size, mut draft)) = inner_path(alloc, group)? else {
        return Ok(None);
    };
    match group_condition(alloc, group, size)? {
        Some(condition) => {
            draft.when = When::If(condition);
            Ok(Some(draft))
        }
        None => Ok(None),
    }
}

fn read_other<'t, 'a>(
    alloc: Global,
    group: &'t [Token<'a>],
) -> Result<Option<Draft<'t, 'a>>, NoMemory> {
    let Some((_, mut draft)) = inner_path(alloc, group)? else {
        return Ok(None);
    };
    draft.when = When::Else;
    Ok(Some(draft))
}

/// The entry that a group is, if it is one. Takes memory.
pub fn read_draft<'t, 'a>(
    alloc: Global,
    group: &'t [Token<'a>],
) -> Result<Option<Draft<'t, 'a>>, NoMemory> {
    match keyword_of(group) {
        Some(Keyword::Cond) => read_conditional(alloc, group),
        Some(Keyword::CondElse) => read_other(alloc, group),
        Some(word) => read_plain(alloc, word, group),
        None => Ok(None),
    }
}
