// Ports of entries with their edges and conditions.
use crate::conditions::{Condition, group_condition};
use crate::groups::{is_group, parts_of};
use crate::ports::{Port, port_of};
use sdf_lex::{Lexeme, Token};
use sdf_tree::Keyword;
use sg_text::NoMemory;
use std::alloc::Global;

/// A port of a path or a timing check: perhaps with an edge's word, and perhaps with a condition.
#[derive(Drop)]
pub struct Term<'a> {
    pub condition: Option<Condition>,
    pub edge: Option<Keyword>,
    pub port: Port<'a>,
}

impl<'a> Term<'a> {
    /// Takes memory.
    pub fn copy(&self, alloc: Global) -> Result<Term<'a>, NoMemory> {
        Ok(Term {
            condition: match &self.condition {
                Some(condition) => Some(condition.copy(alloc)?),
                None => None,
            },
            edge: self.edge,
            port: self.port,
        })
    }
}

/// The word that a token is.
pub fn word_of(token: &Token<'_>) -> Option<Keyword> {
    match token.lexeme {
        Lexeme::Word(bytes) => Keyword::of(bytes),
        _ => None,
    }
}

/// Whether a word is that of an edge.
pub fn is_edge(word: Keyword) -> bool {
    match word {
        Keyword::Posedge
        | Keyword::Negedge
        | Keyword::Edge01
        | Keyword::Edge10
        | Keyword::Edge0z
        | Keyword::EdgeZ1
        | Keyword::Edge1z
        | Keyword::EdgeZ0 => true,
        _ => false,
    }
}

fn plain_term<'a>(part: &[Token<'a>]) -> Option<Term<'a>> {
    let port = port_of(part)?;
    Some(Term {
        condition: None,
        edge: None,
        port,
    })
}

// `port`, or `(edge port)`
fn edge_term<'a>(alloc: Global, part: &[Token<'a>]) -> Result<Option<Term<'a>>, NoMemory> {
    if !is_group(part) {
        return Ok(plain_term(part));
    }
    let parts = parts_of(alloc, part)?;
    let [word, port] = parts.as_slice() else {
        return Ok(None);
    };
    let edge = match word.first().and_then(|token| word_of(token)) {
        Some(edge) if is_edge(edge) => edge,
        _ => return Ok(None),
    };
    Ok(match plain_term(port) {
        Some(term) => Some(Term {
            condition: None,
            edge: Some(edge),
            port: term.port,
        }),
        None => None,
    })
}

// `(COND [text] condition term)`
fn conditional_term<'a>(alloc: Global, group: &[Token<'a>]) -> Result<Option<Term<'a>>, NoMemory> {
    let parts = parts_of(alloc, group)?;
    let Some(last) = parts.last() else {
        return Ok(None);
    };
    let condition = group_condition(alloc, group, last.len())?;
    let term = edge_term(alloc, last)?;
    Ok(match (condition, term) {
        (Some(condition), Some(term)) => Some(Term {
            condition: Some(condition),
            edge: term.edge,
            port: term.port,
        }),
        _ => None,
    })
}

// The word behind the parenthesis of a group.
fn first_word(group: &[Token<'_>]) -> Option<Keyword> {
    let token = group.get(1)?;
    word_of(token)
}

/// The term that a part is, if it is one. Takes memory.
pub fn term_of<'a>(alloc: Global, part: &[Token<'a>]) -> Result<Option<Term<'a>>, NoMemory> {
    if !is_group(part) {
        return Ok(plain_term(part));
    }
    match first_word(part) {
        Some(Keyword::Cond) => conditional_term(alloc, part),
        _ => edge_term(alloc, part),
    }
}
