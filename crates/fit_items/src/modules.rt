// A module, read from its tokens.
use crate::heads::{Head, head_of};
use crate::items::{Item, Module, Run};
use crate::signs::{is_keyword, name_at};
use crate::splitting::statements_of;
use crate::statements::kind_of;
use sg_text::{Keyword, NoMemory};
use std::alloc::Global;
use vl_token::{Token, TokenKind};

fn begins_module(token: &Token<'_>) -> bool {
    match token.kind {
        TokenKind::Module(_) => true,
        _ => false,
    }
}

// Whether the tokens are one module with a name, from its first word to its last.
fn is_module(part: &[Token<'_>]) -> bool {
    let [first, inner @ .., last] = part else {
        return false;
    };
    begins_module(first)
        && is_keyword(last, Keyword::EndModule)
        && name_at(part, 1).is_some()
        && !inner.iter().any(|token| begins_module(token))
}

fn add_items(
    alloc: Global,
    part: &[Token<'_>],
    wholes: &[Run],
    items: &mut Vec<Item>,
) -> Result<(), NoMemory> {
    for whole in wholes {
        let kind = kind_of(alloc, part, *whole)?;
        items.push(Item {
            whole: *whole,
            kind,
        })?;
    }
    Ok(())
}

/// What the tokens of a part say, if it is a module whose statements can be told apart: its brackets match, and each port of
/// its head is a name. Takes time and memory in proportion to the tokens.
pub fn read_module(alloc: Global, part: &[Token<'_>]) -> Result<Option<Module>, NoMemory> {
    if !is_module(part) {
        return Ok(None);
    }
    let Some(head) = head_of(alloc, part)? else {
        return Ok(None);
    };
    let Head {
        params,
        ports,
        run,
        behind,
    } = head;
    let body = Run {
        first: behind,
        end: part.len().saturating_sub(1),
    };
    let Some(wholes) = statements_of(alloc, part, body)? else {
        return Ok(None);
    };
    let mut items = Vec::new(alloc);
    if let Some(params) = params {
        items.push(params)?;
    }
    add_items(alloc, part, &wholes, &mut items)?;
    Ok(Some(Module {
        name: 1,
        head: ports,
        head_run: run,
        items,
    }))
}
