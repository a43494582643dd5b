// The sizes of a scope's delays and limits.
ghost use Rattle.std.specs.Prelude.{◌≡◌, ◌<◌, All, length};
ghost use Rattle.std.specs.List.{list_any, zip};
ghost use Rattle.sg_circuit.specs.Circuit.{element_at};
ghost use Rattle.sg_circuit.specs.Closed.{IsClosed, limit_count};
ghost use Rattle.sg_circuit.specs.PathsSeen.{AreIndexedPaths, paths_seen, spanned};
ghost use Rattle.sg_circuit.specs.Seen.{AreIndexed, IsIndexed, circuit_seen, kind_seen};
ghost use Rattle.sg_circuit.specs.TimingsSeen.{timings_at};
ghost use Rattle.annotation_model.specs.Finding.{check_at};
ghost use Rattle.written_entries.specs.Groups.{AreGroups};
ghost use Rattle.written_model.specs.Faults.{sizes};
ghost use Rattle.written_faults.specs.Sizes.{HasPrecision, any_size, delayed_size, has_size_of, is_wrong, check_size, limit_size, path_size};

use sg_circuit::{CheckKind, CheckTiming, ElementKind, LegTiming, Parts, Path, Span};
use sg_delay::Limit;
use written_entries::{Groups, limits_of};

/// A reader takes 18 digits.
const LONGEST: u64 = 1_000_000_000_000_000_000;

/// How the size of a delay or of a limit may be wrong.
#[derive(Clone, Copy, Debug, PartialEq, Eq)]
pub enum SizeFault {
    /// It isn't a multiple of its module's precision, which is so many ticks.
    OffGrid { precision: u64 },
    /// It has more digits than a reader takes.
    TooLong,
}

fn is_wrong(size: u64, fault: SizeFault) -> bool
    requires { HasPrecision fault }
    ensures { result ≡ is_wrong fault size }
{
    match fault {
        SizeFault::OffGrid { precision } => size % precision != 0,
        SizeFault::TooLong => size >= LONGEST,
    }
}

// Whether the delay of a transition or a limit of its pulses is.
fn has_transition(delay: u64, limit: Limit, fault: SizeFault) -> bool
    requires { HasPrecision fault }
    ensures { result ≡ has_size_of (is_wrong fault) (delay, limit) }
{
    let (reject, error) = limits_of(delay, limit);
    [delay, reject, error]
        .iter()
        .any(|size| is_wrong(*size, fault))
}

// Whether one of all transitions has such a size.
fn has_transitions(delays: &[u64; 12], limits: &[Limit; 12], fault: SizeFault) -> bool
    requires { HasPrecision fault }
    ensures { result ≡ list_any (has_size_of (is_wrong fault)) (zip delays.now limits.now) }
{
    delays
        .iter()
        .zip(limits)
        .any(|(delay, limit)| has_transition(*delay, *limit, fault))
}

// Whether the timings at a place of their table have one.
fn has_timing(timings: &[LegTiming], place: usize, fault: SizeFault) -> bool
    requires place { place < length timings.now }
    requires precision { HasPrecision fault }
    ensures { result ≡ any_size (is_wrong fault) (timings_at timings.now place) }
{
    let timing = &timings[place];
    has_transitions(&timing.delays.at, &timing.limits.at, fault)
}

// Whether one of these paths has one.
fn has_each_path(timings: &[LegTiming], paths: &[Path], fault: SizeFault) -> bool
    requires places { All (λ p. p.timing < length timings.now) paths.now }
    requires precision { HasPrecision fault }
    ensures { result ≡ list_any (λ p. any_size (is_wrong fault) (timings_at timings.now p.timing)) paths.now }
{
    paths
        .iter()
        .any(|path| has_timing(timings, path.timing, fault))
}

// Whether one of the paths of a span has one.
fn has_path(parts: &Parts, span: Span, fault: SizeFault) -> bool
    requires indexed { AreIndexedPaths (length parts.now.conditions.items) (length parts.now.leg_timings.items) parts.now.paths.items span }
    requires precision { HasPrecision fault }
    ensures { result ≡ list_any (path_size (is_wrong fault)) (paths_seen parts.now.conditions.items parts.now.leg_timings.items (spanned parts.now.paths.items span)) }
{
    has_each_path(&parts.leg_timings, parts.paths_in(span), fault)
}

// Whether an element of a kind has one.
fn has_delayed(parts: &Parts, kind: ElementKind, fault: SizeFault) -> bool
    requires indexed { IsIndexed parts.now kind }
    requires precision { HasPrecision fault }
    ensures { result ≡ delayed_size (is_wrong fault) (kind_seen parts.now kind) }
{
    match kind {
        ElementKind::Leg { timing } => has_timing(&parts.leg_timings, timing as usize, fault),
        ElementKind::Path { paths, .. } => has_path(parts, paths, fault),
        _ => false,
    }
}

// Whether the element of a number has one.
fn has_element(parts: &Parts, number: u32, fault: SizeFault) -> bool
    requires indexed { AreIndexed parts.now }
    requires number { number < length parts.now.elements.items }
    requires precision { HasPrecision fault }
    ensures { result ≡ delayed_size (is_wrong fault) (element_at (circuit_seen parts.now) number).kind }
{
    has_delayed(parts, parts.elements[number as usize].kind, fault)
}

// Whether one of the elements of these numbers has one.
fn has_elements(parts: &Parts, numbers: &[u32], fault: SizeFault) -> bool
    requires indexed { AreIndexed parts.now }
    requires numbers { All (λ n. n < length parts.now.elements.items) numbers.now }
    requires precision { HasPrecision fault }
    ensures { result ≡ list_any (λ n. delayed_size (is_wrong fault) (element_at (circuit_seen parts.now) n).kind) numbers.now }
{
    numbers
        .iter()
        .any(|number| has_element(parts, *number, fault))
}

fn limit_count(kind: CheckKind) -> usize
    ensures { result ≡ limit_count kind }
{
    match kind {
        CheckKind::Setuphold | CheckKind::Recrem => 2,
        _ => 1,
    }
}

// Whether one of the limits that a timing check has is wrong.
fn has_limit(kind: CheckKind, limits: &[i64; 2], fault: SizeFault) -> bool
    requires { HasPrecision fault }
    ensures wrong { result ≡ limit_size (is_wrong fault) kind limits.now }
    ensures count { length limits.now ≡ 2 }
{
    limits
        .iter()
        .take(limit_count(kind))
        .any(|limit| is_wrong(limit.unsigned_abs(), fault))
}

// Whether a limit of the timing check of a number is.
fn has_check(parts: &Parts, number: u32, fault: SizeFault) -> bool
    requires closed { IsClosed (circuit_seen parts.now) }
    requires number { number < length parts.now.checks.items }
    requires precision { HasPrecision fault }
    ensures { result ≡ check_size (is_wrong fault) (check_at (circuit_seen parts.now) number).timing }
{
    let timing = &parts.check_timings[number as usize];
    has_limit(timing.kind, &timing.limits, fault)
}

// Whether a limit of one of the timing checks of these numbers is.
fn has_checks(parts: &Parts, numbers: &[u32], fault: SizeFault) -> bool
    requires closed { IsClosed (circuit_seen parts.now) }
    requires numbers { All (λ n. n < length parts.now.checks.items) numbers.now }
    requires precision { HasPrecision fault }
    ensures { result ≡ list_any (λ n. check_size (is_wrong fault) (check_at (circuit_seen parts.now) n).timing) numbers.now }
{
    numbers
        .iter()
        .any(|number| has_check(parts, *number, fault))
}

/// Whether a delay or a limit of a scope is wrong so.
pub fn has_size(parts: &Parts, groups: &Groups, scope: u32, fault: SizeFault) -> bool
    requires closed { IsClosed (circuit_seen parts.now) }
    requires indexed { AreIndexed parts.now }
    requires groups { AreGroups parts.now groups.now }
    requires scope { scope < length parts.now.scopes.items }
    requires precision { HasPrecision fault }
    ensures { result ≡ list_any (is_wrong fault) (sizes (circuit_seen parts.now) scope) }
{
    has_elements(parts, groups.elements.of(scope), fault)
        || has_checks(parts, groups.checks.of(scope), fault)
}
