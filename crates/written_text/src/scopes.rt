// The text, scope after scope.
ghost use Rattle.std.specs.Prelude.{◌≡◌, ◌+◌, ◌<◌, ◌≤◌, ◌++◌, All, IfErr, IfOk, OnOk, flat_map, length, false};
ghost use Rattle.std.specs.List.{range_with_len};
ghost use Rattle.sg_circuit.specs.Closed.{IsClosed};
ghost use Rattle.sg_circuit.specs.Seen.{AreIndexed, circuit_seen};
ghost use Rattle.written_model.specs.Faults.{is_too_large};
ghost use Rattle.written_entries.specs.Groups.{AreGroups};
ghost use Rattle.written_text.specs.Large.{IsTooLongFor};
ghost use Rattle.written_model.specs.Text.{cell_text, head_line, text};

use crate::cells::push_cell;
use crate::pages::Page;
use crate::places::{BitPlace, no_places, place_variables};
use crate::words::push_tick;
use sg_circuit::Parts;
use sg_time::Unit;
use std::alloc::{AllocError, Global};
use written_entries::Groups;
use written_model::WriteError;

/// A reader takes no more bytes.
const LARGEST: usize = 1 << 28;

fn push_head(text: &mut Vec<u8>, tick: Unit) -> Result<(), AllocError>
    ensures { OnOk result (text.new.items ≡ text.old.items ++ head_line tick.power) }
{
    text.extend_from_slice(b"(DELAYFILE (SDFVERSION \"3.0\") (DIVIDER /) (TIMESCALE ")?;
    push_tick(text, tick)?;
    text.extend_from_slice(b")\n")
}

// The cell of a scope, whose nets are given places first.
fn push_named_cell(
    alloc: Global,
    text: &mut Vec<u8>,
    parts: &Parts,
    groups: &Groups,
    places: &mut [BitPlace],
    scope: u32,
) -> Result<(), AllocError>
    requires closed { IsClosed (circuit_seen parts.now) }
    requires indexed { AreIndexed parts.now }
    requires groups { AreGroups parts.now groups.now }
    requires nets { length places.old ≡ length parts.now.nets.items }
    requires scope { scope < length parts.now.scopes.items }
    requires fresh { All (λ p. p.mark ≤ scope) places.old }
    ensures text { OnOk result (text.new.items ≡ text.old.items ++ cell_text (circuit_seen parts.now) scope) }
    ensures marks { All (λ p. p.mark ≤ scope + 1) places.new }
{
    place_variables(places, scope + 1, &parts.scopes[scope as usize].variables);
    let page = Page {
        parts,
        scope,
        places,
    };
    push_cell(
        alloc,
        text,
        &page,
        groups.elements.of(scope),
        groups.checks.of(scope),
    )
}

// The same, with nothing done for a scope that has nothing to write.
fn push_scope(
    alloc: Global,
    text: &mut Vec<u8>,
    parts: &Parts,
    groups: &Groups,
    places: &mut [BitPlace],
    scope: u32,
) -> Result<(), AllocError>
    requires closed { IsClosed (circuit_seen parts.now) }
    requires indexed { AreIndexed parts.now }
    requires groups { AreGroups parts.now groups.now }
    requires nets { length places.old ≡ length parts.now.nets.items }
    requires scope { scope < length parts.now.scopes.items }
    requires fresh { All (λ p. p.mark ≤ scope) places.old }
    ensures text { OnOk result (text.new.items ≡ text.old.items ++ cell_text (circuit_seen parts.now) scope) }
    ensures marks { All (λ p. p.mark ≤ scope + 1) places.new }
{
    if groups.elements.of(scope).is_empty() && groups.checks.of(scope).is_empty() {
        return Ok(());
    }
    push_named_cell(alloc, text, parts, groups, places, scope)
}

// All cells, as long as the text isn't too large.
fn push_scopes(
    alloc: Global,
    text: &mut Vec<u8>,
    parts: &Parts,
    groups: &Groups,
    places: &mut [BitPlace],
) -> Result<(), WriteError>
    requires closed { IsClosed (circuit_seen parts.now) }
    requires indexed { AreIndexed parts.now }
    requires groups { AreGroups parts.now groups.now }
    requires nets { length places.old ≡ length parts.now.nets.items }
    requires fresh { All (λ p. p.mark ≤ 0) places.old }
    ensures text { OnOk result (text.new.items ≡ text.old.items ++ flat_map (cell_text (circuit_seen parts.now)) (range_with_len 0 (length parts.now.scopes.items))) }
    ensures fault { IfErr result (IsTooLongFor (text.old.items ++ flat_map (cell_text (circuit_seen parts.now)) (range_with_len 0 (length parts.now.scopes.items)))) }
{
    for scope in 0..parts.scopes.len() as u32 {
        push_scope(alloc, text, parts, groups, places, scope)?;
        if text.len() > LARGEST {
            return Err(WriteError::TooLarge { scope: 0 });
        }
    }
    Ok(())
}

/// The whole text.
pub fn written(alloc: Global, parts: &Parts, groups: &Groups) -> Result<Vec<u8>, WriteError>
    requires closed { IsClosed (circuit_seen parts.now) }
    requires indexed { AreIndexed parts.now }
    requires groups { AreGroups parts.now groups.now }
    ensures text { IfOk result (λ made. made.items ≡ text (circuit_seen parts.now)) }
    ensures small { OnOk result (is_too_large (circuit_seen parts.now) ≡ false) }
    ensures fault { IfErr result (IsTooLongFor (text (circuit_seen parts.now))) }
{
    let mut text = Vec::new(alloc);
    let mut places = no_places(alloc, parts.nets.len())?;
    push_head(&mut text, parts.tick)?;
    push_scopes(alloc, &mut text, parts, groups, &mut places)?;
    text.extend_from_slice(b")\n")?;
    if text.len() > LARGEST {
        return Err(WriteError::TooLarge { scope: 0 });
    }
    Ok(text)
}
