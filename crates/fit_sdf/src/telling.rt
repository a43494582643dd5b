// The lines of a report that say how many entries find their places.
ghost use Rattle.std.specs.Prelude.{◌≡◌, ◌++◌, OnOk, codes, decimal, map};
ghost use Rattle.fit_sdf.specs.Counts.{count_seen, sdf_count_text, sdf_counts_text};

use crate::counts::Count;
use itoa::Buffer;
use sg_text::NoMemory;

fn push_number(text: &mut Vec<u8>, number: u64) -> Result<(), NoMemory>
    ensures { OnOk result (text.new.items ≡ text.old.items ++ decimal number) }
{
    let mut buffer = Buffer::new();
    text.extend_from_slice(buffer.format(number).as_bytes())?;
    Ok(())
}

fn push_word(text: &mut Vec<u8>, word: &str) -> Result<(), NoMemory>
    ensures { OnOk result (text.new.items ≡ text.old.items ++ (codes "annotates " ++ word.now ++ codes " ")) }
{
    text.extend_from_slice(b"annotates ")?;
    text.extend_from_slice(word.as_bytes())?;
    text.push(b' ')?;
    Ok(())
}

fn push_count(text: &mut Vec<u8>, count: &Count) -> Result<(), NoMemory>
    ensures { OnOk result (text.new.items ≡ text.old.items ++ sdf_count_text (count_seen count.now)) }
{
    push_word(text, count.word)?;
    push_number(text, count.found)?;
    text.extend_from_slice(b" of ")?;
    push_number(text, count.all)?;
    text.push(b'\n')?;
    Ok(())
}

/// Adds how many entries of each word find their places, and how many there are.
pub fn push_sdf_counts(text: &mut Vec<u8>, counts: &[Count]) -> Result<(), NoMemory>
    ensures { OnOk result (text.new.items ≡ text.old.items ++ sdf_counts_text (map count_seen counts.now)) }
{
    for count in counts {
        push_count(text, count)?;
    }
    Ok(())
}
