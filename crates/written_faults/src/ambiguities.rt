// Entries for the same with different values.
ghost use Rattle.std.specs.Prelude.{◌≡◌, ◌<◌, ◌↔◌, ◌∷◌, [], All, IfOk, IsTrue, length, map};
ghost use Rattle.sg_circuit.specs.PathsSeen.{IsIndexedPath};
ghost use Rattle.sg_circuit.specs.ChecksSeen.{AreWritten};
ghost use Rattle.sg_circuit.specs.Closed.{IsClosed};
ghost use Rattle.sg_circuit.specs.Seen.{AreIndexed, IsIndexed, circuit_seen};
ghost use Rattle.written_entries.specs.Groups.{AreGroups};
ghost use Rattle.written_model.specs.Faults.{Disagree};
ghost use Rattle.written_faults.specs.Classes.{AreClasses};
ghost use Rattle.sg_circuit.specs.TimingsSeen.{leg_timing_seen, limit_seen, timings_of};
ghost use Rattle.written_model.specs.Entries.{CheckEntry, PathEntry, check_entries, limit_at, numbers_of, path_entries};
ghost use Rattle.written_faults.specs.Ambiguities.{IsSame, check_pairs, element_pairs, limit_in, numbers_in, pairs_of_checks, pairs_of_elements, path_pairs};
ghost use Rattle.written_faults.specs.Reading.{Reads};

use crate::keys::{PartCode, PathCode, event_codes, part_number, parts_of, path_code};
use indexmap::IndexMap;
use sg_circuit::{
    CheckConditions, CheckTiming, Element, ElementKind, LegTiming, NetId, Parts, Path,
};
use sg_delay::Limit;
use sg_text::NoMemory;
use std::alloc::Global;
use written_entries::{Groups, limits_of};

fn are_same_at(delay: u64, limit: Limit, other_delay: u64, other_limit: Limit) -> bool
    ensures { IsTrue result ↔ IsSame delay (limit_seen limit) other_delay (limit_seen other_limit) }
{
    let (limits, others) = (limits_of(delay, limit), limits_of(other_delay, other_limit));
    delay == other_delay && limits.0 == others.0 && limits.1 == others.1
}

fn are_same_each(
    delays: &[u64; 12],
    limits: &[Limit; 12],
    other_delays: &[u64; 12],
    other_limits: &[Limit; 12],
) -> bool
    ensures { IsTrue result ↔ (map numbers_of (timings_of delays.now limits.now) ≡ map numbers_of (timings_of other_delays.now other_limits.now)) }
{
    for transition in 0..12 {
        if !are_same_at(
            delays[transition],
            limits[transition],
            other_delays[transition],
            other_limits[transition],
        ) {
            return false;
        }
    }
    true
}

fn are_same(timing: &LegTiming, other: &LegTiming) -> bool
    ensures { IsTrue result ↔ (map numbers_of (leg_timing_seen timing.now) ≡ map numbers_of (leg_timing_seen other.now)) }
{
    are_same_each(
        &timing.delays.at,
        &timing.limits.at,
        &other.delays.at,
        &other.limits.at,
    )
}

// Whether a path has the key of one before, and other delays or limits.
fn add_path<'a>(
    seen: &mut IndexMap<PathCode, &'a LegTiming>,
    code: PathCode,
    timing: &'a LegTiming,
) -> Result<bool, NoMemory>
    ensures { IfOk result (Reads ((code, map numbers_of (leg_timing_seen timing.now)) ∷ []) (numbers_in seen.old) (numbers_in seen.new)) }
{
    if let Some(before) = seen.get(&code) {
        return Ok(!are_same(before, timing));
    }
    seen.insert(code, timing)?;
    Ok(false)
}

fn add_paths<'a>(
    seen: &mut IndexMap<PathCode, &'a LegTiming>,
    timings: &'a [LegTiming],
    classes: &[usize],
    output: NetId,
    paths: &[Path],
) -> Result<bool, NoMemory>
    requires { All (IsIndexedPath (length classes.now) (length timings.now)) paths.now }
    ensures { IfOk result (Reads (path_pairs timings.now classes.now output paths.now) (numbers_in seen.old) (numbers_in seen.new)) }
{
    for path in paths {
        let code = path_code(classes, output, path);
        if add_path(seen, code, &timings[path.timing])? {
            return Ok(true);
        }
    }
    Ok(false)
}

fn add_element<'a>(
    seen: &mut IndexMap<PathCode, &'a LegTiming>,
    parts: &'a Parts,
    classes: &[usize],
    element: &Element,
) -> Result<bool, NoMemory>
    requires indexed { IsIndexed parts.now element.now.kind }
    requires classes { length classes.now ≡ length parts.now.conditions.items }
    ensures { IfOk result (Reads (element_pairs parts.now classes.now element.now) (numbers_in seen.old) (numbers_in seen.new)) }
{
    match element.kind {
        ElementKind::Path { paths, .. } => add_paths(
            seen,
            &parts.leg_timings,
            classes,
            element.output,
            parts.paths_in(paths),
        ),
        _ => Ok(false),
    }
}

fn add_elements<'a>(
    seen: &mut IndexMap<PathCode, &'a LegTiming>,
    parts: &'a Parts,
    classes: &[usize],
    numbers: &[u32],
) -> Result<bool, NoMemory>
    requires indexed { AreIndexed parts.now }
    requires classes { length classes.now ≡ length parts.now.conditions.items }
    requires within { All (λ n. n < length parts.now.elements.items) numbers.now }
    ensures { IfOk result (Reads (pairs_of_elements parts.now classes.now numbers.now) (numbers_in seen.old) (numbers_in seen.new)) }
{
    for number in numbers {
        let element = &parts.elements[*number as usize];
        if add_element(seen, parts, classes, element)? {
            return Ok(true);
        }
    }
    Ok(false)
}

/// Whether two specify paths of a scope have one key, and different delays or limits. Takes time and memory in proportion to them.
pub fn are_paths_ambiguous(
    alloc: Global,
    parts: &Parts,
    groups: &Groups,
    classes: &[usize],
    scope: u32,
) -> Result<bool, NoMemory>
    requires closed { IsClosed (circuit_seen parts.now) }
    requires indexed { AreIndexed parts.now }
    requires groups { AreGroups parts.now groups.now }
    requires scope { scope < length parts.now.scopes.items }
    requires classes { AreClasses parts.now.conditions.items classes.now }
    ensures { IfOk result (λ b. IsTrue b ↔ Disagree (λ (e : PathEntry). e.key) (λ (e : PathEntry). e.numbers) (path_entries (circuit_seen parts.now) scope)) }
{
    let mut seen = IndexMap::new(alloc);
    let ambiguous = add_elements(&mut seen, parts, classes, groups.elements.of(scope))?;
    Ok(ambiguous)
}

// Whether a part has the key of one before, and another limit.
fn add_part(
    seen: &mut IndexMap<PartCode, i64>,
    code: PartCode,
    timing: &CheckTiming,
    place: usize,
) -> Result<bool, NoMemory>
    requires { place < 2 }
    ensures { IfOk result (Reads ((code, limit_at timing.now.limits place) ∷ []) (limit_in seen.old) (limit_in seen.new)) }
{
    let limit = timing.limits[place];
    if let Some(before) = seen.get(&code) {
        return Ok(*before != limit);
    }
    seen.insert(code, limit)?;
    Ok(false)
}

fn add_check(
    seen: &mut IndexMap<PartCode, i64>,
    classes: &[usize],
    timing: &CheckTiming,
    written: CheckConditions,
) -> Result<bool, NoMemory>
    requires { AreWritten (length classes.now) written }
    ensures { IfOk result (Reads (check_pairs classes.now timing.now written) (limit_in seen.old) (limit_in seen.new)) }
{
    let (refer, datum) = event_codes(classes, timing, written);
    let (first, second) = parts_of(timing.kind);
    if add_part(seen, (part_number(first), refer, datum), timing, 0)? {
        return Ok(true);
    }
    match second {
        Some(second) => add_part(seen, (part_number(second), refer, datum), timing, 1),
        None => Ok(false),
    }
}

fn add_checks(
    seen: &mut IndexMap<PartCode, i64>,
    parts: &Parts,
    classes: &[usize],
    numbers: &[u32],
) -> Result<bool, NoMemory>
    requires indexed { AreIndexed parts.now }
    requires classes { length classes.now ≡ length parts.now.conditions.items }
    requires timings { All (λ n. n < length parts.now.check_timings.items) numbers.now }
    requires conditions { All (λ n. n < length parts.now.check_conditions.items) numbers.now }
    ensures { IfOk result (Reads (pairs_of_checks parts.now classes.now numbers.now) (limit_in seen.old) (limit_in seen.new)) }
{
    for number in numbers {
        let number = *number as usize;
        let timing = &parts.check_timings[number];
        if add_check(seen, classes, timing, parts.check_conditions[number])? {
            return Ok(true);
        }
    }
    Ok(false)
}

/// Whether two parts of timing checks of a scope have one key, and different limits. Takes time and memory in proportion to them.
pub fn are_checks_ambiguous(
    alloc: Global,
    parts: &Parts,
    groups: &Groups,
    classes: &[usize],
    scope: u32,
) -> Result<bool, NoMemory>
    requires closed { IsClosed (circuit_seen parts.now) }
    requires indexed { AreIndexed parts.now }
    requires groups { AreGroups parts.now groups.now }
    requires scope { scope < length parts.now.scopes.items }
    requires classes { AreClasses parts.now.conditions.items classes.now }
    ensures { IfOk result (λ b. IsTrue b ↔ Disagree (λ (e : CheckEntry). e.key) (λ (e : CheckEntry). e.limit) (check_entries (circuit_seen parts.now) scope)) }
{
    let mut seen = IndexMap::new(alloc);
    let ambiguous = add_checks(&mut seen, parts, classes, groups.checks.of(scope))?;
    Ok(ambiguous)
}
