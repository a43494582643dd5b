// What rules ask for.
use fit_changes::{Changes, Rule};
use fit_items::{
    Module, Run, is_plain_name, part_name, push_token, span_of, span_of_all, text_of, tokens_of,
};
use sg_text::NoMemory;
use std::alloc::Global;
use vl_token::{Token, TokenKind};

/// A module at which rules look, and the files in which it stands.
#[derive(Clone, Copy)]
pub struct View<'m, 'a, 'f> {
    pub alloc: Global,
    pub part: &'m [Token<'a>],
    pub module: &'m Module,
    pub files: &'m [Changes<'f>],
}

impl<'m, 'a, 'f> View<'m, 'a, 'f> {
    /// The module's name.
    pub fn name(&self) -> &'a [u8] {
        part_name(self.part)
    }

    // The bytes of a run, if they are its tokens on one line and no comment.
    fn line(&self, tokens: &[Token<'a>]) -> Option<&'f [u8]> {
        if !tokens
            .iter()
            .all(|token| span_of(self.files, token).is_some())
        {
            return None;
        }
        let bytes = text_of(self.files, span_of_all(self.files, tokens)?)?;
        if is_line(bytes) { Some(bytes) } else { None }
    }

    /// The tokens of a run as one line, without a blank at its end. Takes memory.
    pub fn text(&self, run: Run) -> Result<Vec<u8>, NoMemory> {
        let tokens = tokens_of(self.part, run);
        if let Some(bytes) = self.line(tokens) {
            return Ok(Vec::from_slice(self.alloc, bytes)?);
        }
        let mut text = Vec::new(self.alloc);
        for token in tokens {
            if !text.is_empty() {
                text.push(b' ')?;
            }
            push_token(&mut text, self.files, token)?;
        }
        Ok(text)
    }

    /// Adds the tokens of a run, and a blank behind an escaped name at their end.
    pub fn push(&self, text: &mut Vec<u8>, run: Run) -> Result<(), NoMemory> {
        text.extend_from_slice(&self.text(run)?)?;
        let is_escaped = match tokens_of(self.part, run).last().map(|token| token.kind) {
            Some(TokenKind::Name(name)) => !is_plain_name(name),
            _ => false,
        };
        if is_escaped {
            text.push(b' ')?;
        }
        Ok(())
    }
}

// Whether a text is on one line, and no comment is in it.
fn is_line(bytes: &[u8]) -> bool {
    let mut before = b' ';
    for b in bytes {
        if *b < b' ' && *b != b'\t' || before == b'/' && (*b == b'/' || *b == b'*') {
            return false;
        }
        before = *b;
    }
    true
}

/// Tokens of a module, and the text that is to take their place, by which rule, and what that is in words. Where there are no
/// tokens, the text is to stand before the one at which they begin.
#[derive(Drop)]
pub struct Ask {
    pub run: Run,
    pub text: Vec<u8>,
    pub rule: Rule,
    pub what: Vec<u8>,
}
