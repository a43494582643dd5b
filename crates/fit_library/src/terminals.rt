// Between which ports the paths of a specify block lead (IEEE 1364-2005, 14.2).
use fit_items::{Run, is_symbol, name_of, tokens_of};
use sg_text::NoMemory;
use std::alloc::Global;
use vl_token::{Symbol, Token};

/// The names at both ends of paths.
#[derive(Drop)]
pub struct Terminals {
    pub starts: Vec<Vec<u8>>,
    pub ends: Vec<Vec<u8>>,
}

fn is_arrow(token: &Token<'_>) -> bool {
    is_symbol(token, Symbol::Parallel) || is_symbol(token, Symbol::Full)
}

// Adds the names that stand in no brackets.
fn add_names(
    alloc: Global,
    tokens: &[Token<'_>],
    names: &mut Vec<Vec<u8>>,
) -> Result<(), NoMemory> {
    let mut is_select = false;
    for token in tokens {
        if is_symbol(token, Symbol::LeftBracket) {
            is_select = true;
        } else if is_symbol(token, Symbol::RightBracket) {
            is_select = false;
        } else if is_symbol(token, Symbol::Colon) && !is_select {
            break;
        } else if let Some(name) = name_of(token) {
            if !is_select {
                names.push(Vec::from_slice(alloc, name)?)?;
            }
        }
    }
    Ok(())
}

impl Terminals {
    pub fn new(alloc: Global) -> Terminals {
        Terminals {
            starts: Vec::new(alloc),
            ends: Vec::new(alloc),
        }
    }

    /// Adds those of a path, given what stands in its parentheses.
    pub fn add_path(
        &mut self,
        alloc: Global,
        part: &[Token<'_>],
        head: Run,
    ) -> Result<(), NoMemory> {
        let tokens = tokens_of(part, head);
        let Some(arrow) = tokens.iter().position(|token| is_arrow(token)) else {
            return Ok(());
        };
        let (before, behind) = tokens.split_at(arrow);
        add_names(alloc, before, &mut self.starts)?;
        add_names(alloc, behind, &mut self.ends)
    }
}
