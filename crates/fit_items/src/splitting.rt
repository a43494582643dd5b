// Where the statements of a module begin and end.
use crate::items::Run;
use crate::signs::{Bracket, bracket_of, is_keyword, is_one_of, is_symbol};
use sg_text::{Keyword, NoMemory};
use std::alloc::Global;
use vl_token::{Symbol, Token, TokenKind};

// How a statement ends.
#[derive(Clone, Copy, Debug, PartialEq, Eq)]
enum Form {
    /// With a semicolon.
    Plain,
    /// With `endspecify`.
    Specify,
    /// With a word that no other statement within ends with.
    Closed(&'static str),
    /// With a semicolon or with the end of its blocks, where no `else` follows.
    Behaviour,
}

// A statement that was begun.
#[derive(Clone, Copy, Debug, PartialEq, Eq)]
struct Open {
    form: Form,
    first: usize,
    // in how many brackets and in how many blocks
    depth: u32,
    blocks: u32,
}

const BLOCKS: [&str; 5] = ["begin", "fork", "case", "casex", "casez"];

const ENDS: [&str; 3] = ["end", "join", "endcase"];

const BEHAVIOUR: [&str; 12] = [
    "always",
    "always_comb",
    "always_ff",
    "always_latch",
    "final",
    "begin",
    "fork",
    "for",
    "case",
    "casex",
    "casez",
    "repeat",
];

fn form_of(token: &Token<'_>) -> Form {
    match token.kind {
        TokenKind::Word(Keyword::Specify) => Form::Specify,
        TokenKind::Word(Keyword::Initial | Keyword::If) => Form::Behaviour,
        _ if is_one_of(token, &["function"]) => Form::Closed("endfunction"),
        _ if is_one_of(token, &["task"]) => Form::Closed("endtask"),
        _ if is_one_of(token, &["generate"]) => Form::Closed("endgenerate"),
        _ if is_one_of(token, &BEHAVIOUR) => Form::Behaviour,
        _ => Form::Plain,
    }
}

impl Open {
    fn new(token: &Token<'_>, first: usize) -> Open {
        Open {
            form: form_of(token),
            first,
            depth: 0,
            blocks: 0,
        }
    }

    // The same behind a token, if it closes no bracket that wasn't opened.
    fn behind(self, token: &Token<'_>) -> Option<Open> {
        let depth = match bracket_of(token) {
            Bracket::Opens => self.depth.saturating_add(1),
            Bracket::Closes => self.depth.checked_sub(1)?,
            Bracket::No => self.depth,
        };
        let blocks = if is_one_of(token, &BLOCKS) {
            self.blocks.saturating_add(1)
        } else if is_one_of(token, &ENDS) {
            self.blocks.saturating_sub(1)
        } else {
            self.blocks
        };
        Some(Open {
            form: self.form,
            first: self.first,
            depth,
            blocks,
        })
    }

    // Whether it ends with a token that was passed, before the next one.
    fn ends(self, token: &Token<'_>, next: Option<&Token<'_>>) -> bool {
        let is_semicolon = is_symbol(token, Symbol::Semicolon);
        match self.form {
            Form::Plain => is_semicolon && self.depth == 0,
            Form::Specify => is_keyword(token, Keyword::EndSpecify),
            Form::Closed(word) => is_one_of(token, &[word]),
            Form::Behaviour => {
                (is_semicolon || is_one_of(token, &ENDS))
                    && self.depth == 0
                    && self.blocks == 0
                    && !next.is_some_and(|next| is_one_of(next, &["else"]))
            }
        }
    }
}

// Whether a token is a statement without a word.
fn is_empty(run: Run) -> bool {
    run.len() == 1
}

/// The statements of a run, each with its last token, without empty ones; None where one doesn't end. Takes memory.
pub fn statements_of(
    alloc: Global,
    part: &[Token<'_>],
    run: Run,
) -> Result<Option<Vec<Run>>, NoMemory> {
    let mut list = Vec::new(alloc);
    let mut open: Option<Open> = None;
    for at in run.first..run.end {
        let Some(token) = part.get(at) else {
            return Ok(None);
        };
        let begun = open.unwrap_or(Open::new(token, at));
        let Some(behind) = begun.behind(token) else {
            return Ok(None);
        };
        open = Some(behind);
        if behind.ends(token, part.get(at + 1)) {
            let whole = Run {
                first: behind.first,
                end: at + 1,
            };
            if !is_empty(whole) {
                list.push(whole)?;
            }
            open = None;
        }
    }
    if open.is_some() {
        Ok(None)
    } else {
        Ok(Some(list))
    }
}
