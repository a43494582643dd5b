// Limits that are too long where they are read, since they are for a part of a setuphold or a recrem.
ghost use Rattle.std.specs.Prelude.{◌≡◌, ◌<◌, All, IfSome, length, List, ℤ};
ghost use Rattle.std.specs.List.{list_any};
ghost use Rattle.sg_circuit.specs.ChecksSeen.{AreWritten};
ghost use Rattle.sg_circuit.specs.Closed.{IsClosed};
ghost use Rattle.sg_circuit.specs.Seen.{AreIndexed, circuit_seen};
ghost use Rattle.sg_circuit.specs.Signals as delayed;
ghost use Rattle.annotation_model.specs.Finding.{check_at};
ghost use Rattle.written_entries.specs.Groups.{AreGroups};
ghost use Rattle.written_model.specs.Entries as entries;
ghost use Rattle.written_model.specs.Faults as def;
ghost use Rattle.written_faults.specs.Classes.{AreClasses};
ghost use Rattle.written_faults.specs.Weights as weights;

use annotation_conditions::fits_edge;
use sg_circuit::{CheckConditions, CheckKind, CheckTiming, Event, Parts};
use written_entries::{Groups, edge_of};
use written_model::Part;

// Whether a limit weighs too much, as often as there are signals and once more.
fn is_heavy(limits: &[i64; 2], place: usize, signals: u32) -> bool
    requires { place < 2 }
    ensures { result ≡ weights.is_heavy_limit signals (entries.limit_at limits.now place) }
{
    u128::from(limits[place].unsigned_abs()) * (u128::from(signals) + 1) >= 1 << 60
}

// The parts of a timing check.
fn parts_of(kind: CheckKind) -> (Part, Option<Part>)
    ensures { (limits : List ℤ) → weights.parts_with result limits ≡ entries.parts_of kind limits }
{
    match kind {
        CheckKind::Setup => (Part::Setup, None),
        CheckKind::Hold => (Part::Hold, None),
        CheckKind::Recovery => (Part::Recovery, None),
        CheckKind::Removal => (Part::Removal, None),
        CheckKind::Skew => (Part::Skew, None),
        CheckKind::Setuphold => (Part::Setup, Some(Part::Hold)),
        CheckKind::Recrem => (Part::Recovery, Some(Part::Removal)),
        CheckKind::Width => (Part::Width, None),
        CheckKind::Period => (Part::Period, None),
    }
}

fn is_part_of(part: Part, kind: CheckKind) -> bool
    ensures { result ≡ def.is_part_of part kind }
{
    match kind {
        CheckKind::Setuphold => matches!(part, Part::Setup | Part::Hold),
        CheckKind::Recrem => matches!(part, Part::Recovery | Part::Removal),
        _ => false,
    }
}

fn fits_class(classes: &[usize], wanted: Option<usize>, written: Option<usize>) -> bool
    requires wanted { IfSome wanted (λ p. p < length classes.now) }
    requires written { IfSome written (λ p. p < length classes.now) }
    ensures { result ≡ weights.fits_class classes.now wanted written }
{
    match (wanted, written) {
        (None, _) => true,
        (Some(wanted), Some(written)) => classes[wanted] == classes[written],
        (Some(_), None) => false,
    }
}

fn fits_event(
    classes: &[usize],
    event: &Event,
    wanted: Option<usize>,
    other: &Event,
    written: Option<usize>,
) -> bool
    requires wanted { IfSome wanted (λ p. p < length classes.now) }
    requires written { IfSome written (λ p. p < length classes.now) }
    ensures { result ≡ weights.fits_event classes.now event.now wanted other.now written }
{
    event.net == other.net
        && fits_edge(edge_of(event.edge), other.edge)
        && fits_class(classes, wanted, written)
}

fn fits_datum(
    classes: &[usize],
    datum: &Option<Event>,
    wanted: Option<usize>,
    other: &Option<Event>,
    written: Option<usize>,
) -> bool
    requires wanted { IfSome wanted (λ p. p < length classes.now) }
    requires written { IfSome written (λ p. p < length classes.now) }
    ensures { result ≡ weights.fits_datum classes.now datum.now wanted other.now written }
{
    match (datum, other) {
        (None, _) => true,
        (Some(datum), Some(other)) => fits_event(classes, datum, wanted, other, written),
        (Some(_), None) => false,
    }
}

fn fits_events(
    classes: &[usize],
    timing: &CheckTiming,
    wanted: CheckConditions,
    other: &CheckTiming,
    written: CheckConditions,
) -> bool
    requires wanted { AreWritten (length classes.now) wanted }
    requires written { AreWritten (length classes.now) written }
    ensures { result ≡ weights.fits_events classes.now timing.now wanted other.now written }
{
    fits_event(
        classes,
        &timing.refer,
        wanted.refer,
        &other.refer,
        written.refer,
    ) && fits_datum(
        classes,
        &timing.datum,
        wanted.datum,
        &other.datum,
        written.datum,
    )
}

// Whether the entry of a part of a check is for a part of another.
fn is_for_check(classes: &[usize], parts: &Parts, check: u32, part: Part, window: u32) -> bool
    requires closed { IsClosed (circuit_seen parts.now) }
    requires indexed { AreIndexed parts.now }
    requires check { check < length parts.now.checks.items }
    requires window { window < length parts.now.checks.items }
    requires classes { AreClasses parts.now.conditions.items classes.now }
    ensures { result ≡ weights.is_for_check (weights.part_key (check_at (circuit_seen parts.now) check) part) (check_at (circuit_seen parts.now) window) }
{
    let (check, window) = (check as usize, window as usize);
    let other = &parts.check_timings[window];
    is_part_of(part, other.kind)
        && fits_events(
            classes,
            &parts.check_timings[check],
            parts.check_conditions[check],
            other,
            parts.check_conditions[window],
        )
}

fn is_for_some(classes: &[usize], parts: &Parts, check: u32, part: Part, windows: &[u32]) -> bool
    requires closed { IsClosed (circuit_seen parts.now) }
    requires indexed { AreIndexed parts.now }
    requires check { check < length parts.now.checks.items }
    requires windows { All (λ n. n < length parts.now.checks.items) windows.now }
    requires classes { AreClasses parts.now.conditions.items classes.now }
    ensures { result ≡ weights.is_for_some (circuit_seen parts.now) windows.now check part }
{
    windows.iter().any(|window| is_for_check(classes, parts, check, part, *window))
}

// Whether the limit of a part of a check weighs too much in one of others.
fn is_heavy_part(
    classes: &[usize],
    parts: &Parts,
    signals: u32,
    windows: &[u32],
    check: u32,
    part: Part,
    place: usize,
) -> bool
    requires closed { IsClosed (circuit_seen parts.now) }
    requires indexed { AreIndexed parts.now }
    requires check { check < length parts.now.checks.items }
    requires windows { All (λ n. n < length parts.now.checks.items) windows.now }
    requires classes { AreClasses parts.now.conditions.items classes.now }
    requires place { place < 2 }
    ensures { result ≡ weights.part_heavy (circuit_seen parts.now) signals windows.now check (part, entries.limit_at (check_at (circuit_seen parts.now) check).timing.limits place) }
{
    let limits = &parts.check_timings[check as usize].limits;
    is_heavy(limits, place, signals) && is_for_some(classes, parts, check, part, windows)
}

// Whether the limit of one of its parts does.
fn is_heavy_check(
    classes: &[usize],
    parts: &Parts,
    signals: u32,
    windows: &[u32],
    check: u32,
) -> bool
    requires closed { IsClosed (circuit_seen parts.now) }
    requires indexed { AreIndexed parts.now }
    requires check { check < length parts.now.checks.items }
    requires windows { All (λ n. n < length parts.now.checks.items) windows.now }
    requires classes { AreClasses parts.now.conditions.items classes.now }
    ensures { result ≡ weights.check_heavy (circuit_seen parts.now) signals windows.now check }
{
    let (first, second) = parts_of(parts.check_timings[check as usize].kind);
    if is_heavy_part(classes, parts, signals, windows, check, first, 0) {
        return true;
    }
    match second {
        Some(part) => is_heavy_part(classes, parts, signals, windows, check, part, 1),
        None => false,
    }
}

fn has_heavy_check(classes: &[usize], parts: &Parts, signals: u32, checks: &[u32]) -> bool
    requires closed { IsClosed (circuit_seen parts.now) }
    requires indexed { AreIndexed parts.now }
    requires checks { All (λ n. n < length parts.now.checks.items) checks.now }
    requires classes { AreClasses parts.now.conditions.items classes.now }
    ensures { result ≡ list_any (weights.check_heavy (circuit_seen parts.now) signals checks.now) checks.now }
{
    checks.iter().any(|check| is_heavy_check(classes, parts, signals, checks, *check))
}

/// Whether a limit of a scope is for a window there, and weighs too much.
pub fn has_heavy(
    classes: &[usize],
    parts: &Parts,
    groups: &Groups,
    signals: u32,
    scope: u32,
) -> bool
    requires closed { IsClosed (circuit_seen parts.now) }
    requires indexed { AreIndexed parts.now }
    requires groups { AreGroups parts.now groups.now }
    requires scope { scope < length parts.now.scopes.items }
    requires classes { AreClasses parts.now.conditions.items classes.now }
    requires signals { signals ≡ length (delayed.signals (circuit_seen parts.now).checks (circuit_seen parts.now).check_timings scope) }
    ensures { result ≡ list_any (def.is_heavy (circuit_seen parts.now) scope) (entries.check_entries (circuit_seen parts.now) scope) }
{
    has_heavy_check(classes, parts, signals, groups.checks.of(scope))
}
