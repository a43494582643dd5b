// Entries that are for nothing.
ghost use Rattle.std.specs.Prelude.{◌≡◌, ◌++◌, OnOk};
ghost use Rattle.sdf_meaning.specs.MeantSeen.{view_kind};
ghost use Rattle.annotation_model.specs.Annotated.{word_of as word};
ghost use Rattle.sdf_annotate.specs.Seen.{noted};
ghost use Rattle.sdf_annotate.specs.Told.{told_seen};

use crate::unmatched::Unmatched;
use crate::words::word_of;
use sdf_tree::Entry;
use sg_text::{NoMemory, Text};
use std::alloc::Global;

/// An entry that is for nothing is noted.
pub fn note(
    alloc: Global,
    entry: &Entry<'_>,
    matched: bool,
    unmatched: &mut Vec<Unmatched>,
) -> Result<(), NoMemory>
    ensures { OnOk result (told_seen unmatched.new.items ≡ told_seen unmatched.old.items ++ noted matched entry.now.place (word (view_kind entry.now.kind))) }
{
    if matched {
        return Ok(());
    }
    let word = Text::copy(alloc, word_of(&entry.kind))?;
    unmatched.push(Unmatched {
        place: entry.place,
        word,
    })?;
    Ok(())
}
