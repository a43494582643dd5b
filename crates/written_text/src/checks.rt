// The entries of timing checks.
ghost use Rattle.std.specs.Prelude.{◌≡◌, ◌+◌, ◌++◌, ◌<◌, ◌≤◌, IfSome, OnOk, Some, codes, flat_map, length};
ghost use Rattle.std.specs.Fmt.{signed_decimal};
ghost use Rattle.sg_circuit.specs.ChecksSeen.{AreWritten};
ghost use Rattle.written_text.specs.declared.pages.Page.{Page as CodePage};
ghost use Rattle.written_model.specs.declared.parts.Part.{Part as CodePart};
ghost use Rattle.written_model.specs.Entries as entries;
ghost use Rattle.written_model.specs.Entries.{limit_at};
ghost use Rattle.written_text.specs.Page.{IsPage, datum_of_check, entries_of_check, entry_of_part, event_of, key_of_part, rank_of_event, refer_of_check, variables_of};
ghost use Rattle.written_model.specs.Text.{check_text, event_text, line, terminals_text, value_text};

use crate::conditions::push_words;
use crate::delays::one_if;
use crate::pages::{Page, push_terminal};
use crate::words::push_signed_value;
use sg_circuit::{CheckConditions, CheckKind, CheckTiming, Event};
use std::alloc::AllocError;
use written_entries::{bare, edge_of};
use written_model::Part;

// A terminal with its condition, by the place of that in the circuit's table.
fn push_conditional(
    text: &mut Vec<u8>,
    page: &Page<'_>,
    event: &Event,
    place: usize,
) -> Result<(), AllocError>
    requires page { IsPage page.now }
    requires net { event.now.net < length page.now.parts.now.nets.items }
    requires place { place < length page.now.parts.now.conditions.items }
    ensures { OnOk result (text.new.items ≡ text.old.items ++ event_text (variables_of page.now) (event_of page.now event.now.net event.now.edge (Some place))) }
{
    text.extend_from_slice(b"(COND ")?;
    push_words(text, bare(page.parts.conditions[place].tokens()))?;
    text.push(b' ')?;
    push_terminal(text, page, event.net, edge_of(event.edge))?;
    text.push(b')')?;
    Ok(())
}

fn push_event(
    text: &mut Vec<u8>,
    page: &Page<'_>,
    event: &Event,
    written: Option<usize>,
) -> Result<(), AllocError>
    requires page { IsPage page.now }
    requires net { event.now.net < length page.now.parts.now.nets.items }
    requires place { IfSome written (λ p. p < length page.now.parts.now.conditions.items) }
    ensures { OnOk result (text.new.items ≡ text.old.items ++ event_text (variables_of page.now) (event_of page.now event.now.net event.now.edge written)) }
{
    match written {
        Some(place) => push_conditional(text, page, event, place),
        None => push_terminal(text, page, event.net, edge_of(event.edge)),
    }
}

// The reference's terminal.
fn push_refer(
    text: &mut Vec<u8>,
    page: &Page<'_>,
    timing: &CheckTiming,
    written: CheckConditions,
) -> Result<(), AllocError>
    requires page { IsPage page.now }
    requires refer { timing.now.refer.net < length page.now.parts.now.nets.items }
    requires written { AreWritten (length page.now.parts.now.conditions.items) written }
    ensures { OnOk result (text.new.items ≡ text.old.items ++ event_text (variables_of page.now) (refer_of_check page.now timing.now written)) }
{
    push_event(text, page, &timing.refer, written.refer)
}

// The data's, or that of the one event.
fn push_datum(
    text: &mut Vec<u8>,
    page: &Page<'_>,
    timing: &CheckTiming,
    written: CheckConditions,
) -> Result<(), AllocError>
    requires page { IsPage page.now }
    requires refer { timing.now.refer.net < length page.now.parts.now.nets.items }
    requires datum { IfSome timing.now.datum (λ e. e.net < length page.now.parts.now.nets.items) }
    requires written { AreWritten (length page.now.parts.now.conditions.items) written }
    ensures { OnOk result (text.new.items ≡ text.old.items ++ event_text (variables_of page.now) (datum_of_check page.now timing.now written)) }
{
    match &timing.datum {
        Some(datum) => push_event(text, page, datum, written.datum),
        None => push_event(text, page, &timing.refer, written.refer),
    }
}

// The data's terminal and then the reference's.
fn push_data_first(
    text: &mut Vec<u8>,
    page: &Page<'_>,
    timing: &CheckTiming,
    written: CheckConditions,
    word: &str,
) -> Result<(), AllocError>
    requires page { IsPage page.now }
    requires refer { timing.now.refer.net < length page.now.parts.now.nets.items }
    requires datum { IfSome timing.now.datum (λ e. e.net < length page.now.parts.now.nets.items) }
    requires written { AreWritten (length page.now.parts.now.conditions.items) written }
    ensures { OnOk result (text.new.items ≡ text.old.items ++ (word.now ++ (event_text (variables_of page.now) (datum_of_check page.now timing.now written) ++ (codes " " ++ event_text (variables_of page.now) (refer_of_check page.now timing.now written))))) }
{
    text.extend_from_slice(word.as_bytes())?;
    push_datum(text, page, timing, written)?;
    text.push(b' ')?;
    push_refer(text, page, timing, written)
}

// The other way round.
fn push_refer_first(
    text: &mut Vec<u8>,
    page: &Page<'_>,
    timing: &CheckTiming,
    written: CheckConditions,
    word: &str,
) -> Result<(), AllocError>
    requires page { IsPage page.now }
    requires refer { timing.now.refer.net < length page.now.parts.now.nets.items }
    requires datum { IfSome timing.now.datum (λ e. e.net < length page.now.parts.now.nets.items) }
    requires written { AreWritten (length page.now.parts.now.conditions.items) written }
    ensures { OnOk result (text.new.items ≡ text.old.items ++ (word.now ++ (event_text (variables_of page.now) (refer_of_check page.now timing.now written) ++ (codes " " ++ event_text (variables_of page.now) (datum_of_check page.now timing.now written))))) }
{
    text.extend_from_slice(word.as_bytes())?;
    push_refer(text, page, timing, written)?;
    text.push(b' ')?;
    push_datum(text, page, timing, written)
}

fn push_refer_alone(
    text: &mut Vec<u8>,
    page: &Page<'_>,
    timing: &CheckTiming,
    written: CheckConditions,
    word: &str,
) -> Result<(), AllocError>
    requires page { IsPage page.now }
    requires refer { timing.now.refer.net < length page.now.parts.now.nets.items }
    requires written { AreWritten (length page.now.parts.now.conditions.items) written }
    ensures { OnOk result (text.new.items ≡ text.old.items ++ (word.now ++ event_text (variables_of page.now) (refer_of_check page.now timing.now written))) }
{
    text.extend_from_slice(word.as_bytes())?;
    push_refer(text, page, timing, written)
}

fn push_terminals(
    text: &mut Vec<u8>,
    page: &Page<'_>,
    timing: &CheckTiming,
    written: CheckConditions,
    part: Part,
) -> Result<(), AllocError>
    requires page { IsPage page.now }
    requires refer { timing.now.refer.net < length page.now.parts.now.nets.items }
    requires datum { IfSome timing.now.datum (λ e. e.net < length page.now.parts.now.nets.items) }
    requires written { AreWritten (length page.now.parts.now.conditions.items) written }
    ensures { OnOk result (text.new.items ≡ text.old.items ++ terminals_text part (event_text (variables_of page.now) (refer_of_check page.now timing.now written)) (event_text (variables_of page.now) (datum_of_check page.now timing.now written))) }
{
    match part {
        Part::Setup => push_data_first(text, page, timing, written, "(SETUP "),
        Part::Hold => push_data_first(text, page, timing, written, "(HOLD "),
        Part::Recovery => push_refer_first(text, page, timing, written, "(RECOVERY "),
        Part::Removal => push_refer_first(text, page, timing, written, "(REMOVAL "),
        Part::Skew => push_refer_first(text, page, timing, written, "(SKEW "),
        Part::Width => push_refer_alone(text, page, timing, written, "(WIDTH "),
        Part::Period => push_refer_alone(text, page, timing, written, "(PERIOD "),
    }
}

fn push_limit(text: &mut Vec<u8>, limits: &[i64; 2], place: usize) -> Result<(), AllocError>
    requires { place < 2 }
    ensures { OnOk result (text.new.items ≡ text.old.items ++ value_text (signed_decimal (limit_at limits.now place))) }
{
    push_signed_value(text, limits[place])
}

// The line of a part, which has the limit of a place.
fn push_part(
    text: &mut Vec<u8>,
    page: &Page<'_>,
    timing: &CheckTiming,
    written: CheckConditions,
    part: Part,
    place: usize,
) -> Result<(), AllocError>
    requires page { IsPage page.now }
    requires refer { timing.now.refer.net < length page.now.parts.now.nets.items }
    requires datum { IfSome timing.now.datum (λ e. e.net < length page.now.parts.now.nets.items) }
    requires written { AreWritten (length page.now.parts.now.conditions.items) written }
    requires place { place < 2 }
    ensures { OnOk result (text.new.items ≡ text.old.items ++ line (check_text (variables_of page.now) (entry_of_part page.now timing.now written part (limit_at timing.now.limits place)))) }
{
    push_terminals(text, page, timing, written, part)?;
    text.push(b' ')?;
    push_limit(text, &timing.limits, place)?;
    text.extend_from_slice(b")\n")
}

// The lines of two parts.
fn push_two_parts(
    text: &mut Vec<u8>,
    page: &Page<'_>,
    timing: &CheckTiming,
    written: CheckConditions,
    first: Part,
    second: Part,
) -> Result<(), AllocError>
    requires page { IsPage page.now }
    requires refer { timing.now.refer.net < length page.now.parts.now.nets.items }
    requires datum { IfSome timing.now.datum (λ e. e.net < length page.now.parts.now.nets.items) }
    requires written { AreWritten (length page.now.parts.now.conditions.items) written }
    ensures { OnOk result (text.new.items ≡ text.old.items ++ (line (check_text (variables_of page.now) (entry_of_part page.now timing.now written first (limit_at timing.now.limits 0))) ++ line (check_text (variables_of page.now) (entry_of_part page.now timing.now written second (limit_at timing.now.limits 1))))) }
{
    push_part(text, page, timing, written, first, 0)?;
    push_part(text, page, timing, written, second, 1)
}

/// Adds the lines of a check's parts.
pub fn push_check(
    text: &mut Vec<u8>,
    page: &Page<'_>,
    timing: &CheckTiming,
    written: CheckConditions,
) -> Result<(), AllocError>
    requires page { IsPage page.now }
    requires refer { timing.now.refer.net < length page.now.parts.now.nets.items }
    requires datum { IfSome timing.now.datum (λ e. e.net < length page.now.parts.now.nets.items) }
    requires written { AreWritten (length page.now.parts.now.conditions.items) written }
    ensures { OnOk result (text.new.items ≡ text.old.items ++ flat_map (λ e. line (check_text (variables_of page.now) e)) (entries_of_check page.now timing.now written)) }
{
    match timing.kind {
        CheckKind::Setup => push_part(text, page, timing, written, Part::Setup, 0),
        CheckKind::Hold => push_part(text, page, timing, written, Part::Hold, 0),
        CheckKind::Recovery => push_part(text, page, timing, written, Part::Recovery, 0),
        CheckKind::Removal => push_part(text, page, timing, written, Part::Removal, 0),
        CheckKind::Skew => push_part(text, page, timing, written, Part::Skew, 0),
        CheckKind::Setuphold => push_two_parts(
            text,
            page,
            timing,
            written,
            Part::Setup,
            Part::Hold,
        ),
        CheckKind::Recrem => {
            push_two_parts(text, page, timing, written, Part::Recovery, Part::Removal)
        }
        CheckKind::Width => push_part(text, page, timing, written, Part::Width, 0),
        CheckKind::Period => push_part(text, page, timing, written, Part::Period, 0),
    }
}

fn one_if_written(written: Option<usize>) -> u32
    ensures is { result ≡ entries.one_if written }
    ensures small { result ≤ 1 }
{
    match written {
        Some(_) => 1,
        None => 0,
    }
}

fn event_rank(event: &Event, written: Option<usize>) -> u32
    ensures is { (page : CodePage) → result ≡ rank_of_event page event.now written }
    ensures small { result ≤ 2 }
{
    one_if(edge_of(event.edge)) + one_if_written(written)
}

fn datum_rank(timing: &CheckTiming, written: CheckConditions) -> u32
    ensures is { (page : CodePage) (part : CodePart) → result ≡ entries.datum_rank (key_of_part page timing.now written part).datum }
    ensures small { result ≤ 2 }
{
    match &timing.datum {
        Some(datum) => event_rank(datum, written.datum),
        None => 0,
    }
}

/// How much a check's parts ask for.
pub fn check_rank(timing: &CheckTiming, written: CheckConditions) -> u32
    ensures { (page : CodePage) (part : CodePart) → result ≡ entries.check_rank (key_of_part page timing.now written part) }
{
    event_rank(&timing.refer, written.refer) + datum_rank(timing, written)
}
