// The reader of dumps.
ghost use Rattle.std.specs.Prelude.{◌≡◌, IfOk, IfErr, MatchResult, map};
ghost use Rattle.sg_stimulus.specs.Applied.{IsApplied};
ghost use Rattle.sg_stimulus.specs.Seen.{stimulus_seen};
ghost use Rattle.vcd_form.specs.Reading.{read_of};
ghost use Rattle.vcd_form.specs.Seen.{section_seen};
ghost use Rattle.vcd_model.specs.Faults.{Header};
ghost use Rattle.vcd_model.specs.Reading.{IsRead, RefusalStands};
ghost use Rattle.vcd_model.specs.Values as values;
ghost use Rattle.vcd_stim.specs.Index.{listed};
ghost use Rattle.vcd_stim.specs.Meant.{scale_seen};
ghost use Rattle.vcd_stim.specs.Steps.{IsTableOf};
ghost use Rattle.vcd_stim.specs.Whole.{IsAllRead, NextRead, SectionsRead, StopsBy};

use crate::faults::{fault, of_form};
use crate::items::add_item;
use crate::sections::{table_of, unit_of};
use crate::steps::{Steps, close};
use crate::times::Scale;
use indexmap::IndexMap;
use sg_circuit::{Circuit, NetId};
use sg_stimulus::Stimulus;
use sg_text::Refused;
use std::alloc::Global;
use stim_read::Inputs;
use vcd_form::{Item, Section, Words, next_item, read_header};
use vcd_model::VcdKind;

// The most bytes of a text.
const MOST_BYTES: usize = 1 << 28;

// The next item, if a word is left.
fn next<'t>(words: &mut Words<'t>) -> Result<Option<Item<'t>>, Refused<VcdKind>>
    ensures text { words.new.text.now ≡ words.old.text.now }
    ensures read { NextRead words.old.text.now (read_of words.old) (read_of words.new) result }
{
    match next_item(words) {
        Ok(item) => Ok(item),
        Err(byte) => Err(fault(VcdKind::Syntax, byte)),
    }
}

// The stimulus of the items behind the words that are read.
fn read_items(
    alloc: Global,
    scale: Scale,
    table: &IndexMap<&[u8], Vec<&[NetId]>>,
    words: &mut Words,
) -> Result<Stimulus, Refused<VcdKind>>
    ensures { (h : Header) → h.scale ≡ scale_seen scale → IsTableOf h (listed table.now)
        → MatchResult result (λ s. IsAllRead h words.old.text.now (read_of words.old) (stimulus_seen s)) (StopsBy h words.old.text.now (read_of words.old)) }
{
    let mut steps = Steps::new(alloc);
    while let Some(item) = next(words)? {
        add_item(alloc, scale, table, &item, &mut steps)?;
    }
    close(
        alloc,
        steps.moment.ticks,
        &mut steps.open_sets,
        &mut steps.closed,
    )?;
    Ok(Stimulus {
        steps: steps.closed,
        end: steps.moment.ticks,
    })
}

// The sections of the header, and the place of `$enddefinitions`.
fn header_of<'t>(
    alloc: Global,
    words: &mut Words<'t>,
) -> Result<(Vec<Section<'t>>, usize), Refused<VcdKind>>
    requires { read_of words.old ≡ 0 }
    ensures text { words.new.text.now ≡ words.old.text.now }
    ensures read { SectionsRead words.old.text.now (read_of words.new) result }
{
    match read_header(alloc, words) {
        Ok(header) => Ok(header),
        Err(stop) => Err(of_form(stop)),
    }
}

// The dump's unit and the circuit's tick.
fn scale_of(circuit: &Circuit, sections: &[Section]) -> Scale
    ensures { scale_seen result ≡ values.scale_of circuit.now (map section_seen sections.now) }
{
    Scale {
        unit: unit_of(sections),
        tick: circuit.parts().tick.power,
    }
}

/// The stimulus of a dump, or a fault that stands in it.
pub fn read_dump(
    alloc: Global,
    bytes: &[u8],
    circuit: &Circuit,
    scope: &[u8],
) -> Result<Stimulus, Refused<VcdKind>>
    ensures read { IfOk result (λ s. IsRead bytes.now circuit.now scope.now (stimulus_seen s)) }
    ensures refused { IfErr result (λ r. RefusalStands bytes.now circuit.now scope.now r) }
    ensures applied { IfOk result (λ s. IsApplied circuit.now (stimulus_seen s)) }
{
    if bytes.len() > MOST_BYTES {
        return Err(fault(VcdKind::TooLarge, MOST_BYTES));
    }
    let mut words = Words::new(bytes);
    let (sections, definitions) = header_of(alloc, &mut words)?;
    let inputs = Inputs::of(alloc, circuit)?;
    let table = table_of(alloc, &inputs, scope, definitions, &sections)?;
    let scale = scale_of(circuit, &sections);
    read_items(alloc, scale, &table, &mut words)
}
