// The names of a path.
ghost use Rattle.std.specs.Prelude.{◌≡◌, IfOk, map};
ghost use Rattle.sdf_lex.specs.Names.{called, path_parts};
ghost use Rattle.sdf_tree.specs.Words.{divider_byte};
ghost use Rattle.annotation_scopes.specs.Walks.{names_seen};

use sdf_lex::{called, first_part};
use sdf_tree::Divider;
use sg_text::NoMemory;
use std::alloc::Global;

/// The names of a path in its order, as they are called: without backslashes (IEEE 1497-2001, hierarchical identifiers).
pub fn called_names(alloc: Global, divider: Divider, path: &[u8]) -> Result<Vec<Vec<u8>>, NoMemory>
    ensures { IfOk result (λ names. names_seen names.items ≡ map called (path_parts (divider_byte divider) path.now)) }
{
    let mut names = Vec::new(alloc);
    let mut left = Some(path);
    'more: while let Some(text) = left {
        let (name, behind) = first_part(divider.byte(), text);
        names.push(called(alloc, name)?)?;
        left = behind;
    }
    Ok(names)
}
