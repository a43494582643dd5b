// The statements of a text.
ghost use Rattle.std.specs.Prelude.{◌≡◌, ◌+◌, ◌≤◌, ◌^◌, ◌++◌, ◌∷◌, [], IfOk, OnOk, length, map};
ghost use Rattle.stim_read.specs.Forms.{all_stated};
ghost use Rattle.stim_read.specs.Lines as def;
ghost use Rattle.stim_read.specs.Seen.{decimals, line_seen, stated_seen, stated_lines};

use crate::forms::{Form, form_of};
use crate::lines::{Line, indent, lines_of, words_of};
use std::alloc::{AllocError, Global};

/// A statement: the place of its first byte, and what it says.
#[derive(Debug, Drop)]
pub struct Stated<'a> {
    pub byte: usize,
    pub form: Form<'a>,
}

// Whether these are the words of no statement: there is none, or the first begins with `#`.
fn is_passed_over(words: &[&[u8]]) -> bool
    ensures { result ≡ def.is_passed_over (map (λ w. w.now) words.now) }
{
    match words {
        [] => true,
        [first, ..] => begins_comment(first),
    }
}

fn begins_comment(word: &[u8]) -> bool
    ensures { result ≡ def.begins_with 35 word.now }
{
    match word {
        [] => false,
        [first, ..] => *first == b'#',
    }
}

// The statement of a line is added, if it has one.
fn add_statement<'a>(
    alloc: Global,
    line: &Line<'a>,
    made: &mut Vec<Stated<'a>>,
) -> Result<(), AllocError>
    requires { line.now.start + length line.now.bytes.now ≤ 2 ^ 28 }
    ensures { OnOk result (map (λ s. stated_seen s) made.new.items ≡ map (λ s. stated_seen s) made.old.items ++ stated_lines (line_seen line.now ∷ [])) }
{
    let words = words_of(alloc, line.bytes)?;
    if is_passed_over(&words) {
        return Ok(());
    }
    let form = form_of(alloc, &words)?;
    made.push(Stated {
        byte: line.start + indent(line.bytes),
        form,
    })?;
    Ok(())
}

/// The statements of a text.
pub fn all_stated(alloc: Global, text: &[u8]) -> Result<Vec<Stated<'_>>, AllocError>
    requires { length text.now ≤ 2 ^ 28 }
    ensures { IfOk result (λ made. map (λ s. stated_seen s) made.items ≡ all_stated decimals text.now) }
{
    let lines = lines_of(alloc, text)?;
    let mut made = Vec::new(alloc);
    let mut rest = lines.as_slice();
    while let [line, more @ ..] = rest {
        add_statement(alloc, line, &mut made)?;
        rest = more;
    }
    Ok(made)
}
