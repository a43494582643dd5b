// A leg or a specify path.
ghost use Rattle.std.specs.Prelude.{◌≡◌, ◌<◌, ◌≤◌, ◌+◌, length, slice_index_or};
ghost use Rattle.sg_circuit.specs.PathsSeen.{spanned};
ghost use Rattle.sg_circuit.specs.Seen.{AreIndexed, circuit_seen};
ghost use Rattle.sg_circuit.specs.TimingsSeen.{leg_timing_seen};
ghost use Rattle.sg_circuit.specs.declared.paths.Path.{Path as PathSeen};
ghost use Rattle.annotation_model.specs.Spots.{scope_of, timings_of};
ghost use Rattle.annotation_spots.specs.Counts.{count_of, IsTimingAt, IsWithin};
ghost use Rattle.annotation_spots.specs.Rows.{IsIn, spot_of};

use sg_circuit::{ElementKind, LegTiming, Parts, Path, Span};

// The place of a path's timing, by the path's place in a span.
fn timing_in(paths: &[Path], span: Span, path: u32) -> usize
    requires path { span.start + path < span.end }
    requires within { span.end ≤ length paths.now }
    ensures { (d : PathSeen) → result ≡ (slice_index_or (spanned paths.now span) path d).timing }
{
    paths[span.start as usize + path as usize].timing
}

// The place of the timing of a leg, or of a path of an element of a kind.
fn timing_at(paths: &[Path], kind: ElementKind, path: u32) -> usize
    requires path { path < count_of kind }
    requires within { IsWithin paths.now kind }
    ensures { IsTimingAt paths.now kind path result }
{
    match kind {
        ElementKind::Leg { timing } => timing as usize,
        ElementKind::Path { paths: span, .. } => timing_in(paths, span, path),
        _ => 0,
    }
}

/// A leg, or a specify path by its place among those to its element's output.
#[derive(Clone, Copy, Debug, PartialEq, Eq)]
pub struct Spot {
    pub element: u32,
    /// Of a leg it is 0.
    pub path: u32,
}

impl Spot {
    /// The scope in which it stands.
    pub fn scope(&self, parts: &Parts) -> u32
        requires row { IsIn (circuit_seen parts.now) self.now }
        ensures { result ≡ scope_of (spot_of (circuit_seen parts.now) self.now) }
    {
        parts.elements[self.element as usize].scope
    }

    /// Its delays and limits, as the circuit has them.
    pub fn timing<'p>(&self, parts: &'p Parts) -> &'p LegTiming
        requires row { IsIn (circuit_seen parts.now) self.now }
        requires indexed { AreIndexed parts.now }
        ensures { leg_timing_seen result.now ≡ timings_of (spot_of (circuit_seen parts.now) self.now) }
    {
        let kind = parts.elements[self.element as usize].kind;
        &parts.leg_timings[timing_at(&parts.paths, kind, self.path)]
    }
}
