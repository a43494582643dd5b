// The header of a dump.
ghost use Rattle.std.specs.Prelude.{◌≡◌, ◌<◌, ◌^◌, ◌≤◌, ◌+◌};
ghost use Rattle.vcd_form.specs.Places.{read_at, IsBetween};
ghost use Rattle.vcd_form.specs.Reading.{read_of, HeaderGoes, HeaderRead, StartAt};
ghost use Rattle.vcd_form.specs.Rules as rules;
ghost use Rattle.vcd_form.specs.Seen.{came_seen, section_seen};

use crate::came::Came;
use crate::cursor::Words;
use crate::kinds::is_definitions;
use crate::sections::section_at;
use crate::steps::end_from;
use crate::words::{byte_from, word_from};
use crate::written::Section;
use grammar::ReadFault;
use std::alloc::Global;

// What came before the section behind another.
fn came_after(came: Came, section: &Section<'_>) -> Came
    requires { came.depth < 2 ^ 63 }
    ensures came { came_seen result ≡ rules.came_after (came_seen came) (section_seen section.now) }
    ensures few { result.depth ≤ came.depth + 1 }
{
    match section {
        Section::Timescale(_) => Came {
            scaled: true,
            depth: came.depth,
        },
        Section::Enters(_) => Came {
            scaled: came.scaled,
            depth: came.depth + 1,
        },
        Section::Leaves if came.depth > 0 => Came {
            scaled: came.scaled,
            depth: came.depth - 1,
        },
        _ => came,
    }
}

// `$enddefinitions $end`, and its place.
#[tactic(auto, unfolding(crate::specs::Rules::start_parts))]
fn start_from(text: &[u8], at: usize) -> Result<(usize, usize), ReadFault>
    requires { IsBetween text.now at }
    ensures { StartAt text.now (read_at text.now at) result }
{
    let Some((word, next)) = word_from(text, at) else {
        return Err(ReadFault::At(at));
    };
    if !is_definitions(word.bytes) {
        return Err(ReadFault::At(at));
    }
    match end_from(text, next) {
        Ok(behind) => Ok((word.byte, behind)),
        Err(place) => Err(ReadFault::At(place)),
    }
}

// The sections, the place of `$enddefinitions`, and the place behind it; or the place before the failing word.
fn header_from<'a>(
    alloc: Global,
    text: &'a [u8],
) -> Result<(Vec<Section<'a>>, usize, usize), ReadFault>
    ensures { HeaderGoes text.now result }
{
    let mut sections = Vec::new(alloc);
    let mut came = Came {
        scaled: false,
        depth: 0,
    };
    let mut at = 0;
    'more: while let Some((section, next)) = section_at(text, at, came)? {
        sections.push(section)?;
        came = came_after(came, &section);
        at = next;
    }
    let (byte, behind) = start_from(text, at)?;
    Ok((sections, byte, behind))
}

/// The sections of the header and the place of `$enddefinitions`, or the byte of the failing word, which is the text's length at its end.
pub fn read_header<'a>(
    alloc: Global,
    words: &mut Words<'a>,
) -> Result<(Vec<Section<'a>>, usize), ReadFault>
    requires { read_of words.old ≡ 0 }
    ensures text { words.new.text.now ≡ words.old.text.now }
    ensures read { HeaderRead words.old.text.now (read_of words.new) result }
{
    match header_from(alloc, words.text) {
        Ok((sections, byte, behind)) => {
            words.at = behind;
            Ok((sections, byte))
        }
        Err(ReadFault::At(place)) => Err(ReadFault::At(byte_from(words.text, place))),
        Err(ReadFault::Memory) => Err(ReadFault::Memory),
    }
}
