// The timings of legs and specify paths, set in a circuit that is open.
ghost use Rattle.std.specs.Prelude.{◌≡◌, ◌-◌, ◌<◌, ◌≤◌, All, IfSome, is_some, length};
ghost use Rattle.std.specs.List.{filter};
ghost use Rattle.sg_circuit.specs.Closed.{AreTimings};
ghost use Rattle.sg_circuit.specs.TimingsSeen.{leg_timing_seen};
ghost use Rattle.circuit_open.specs.Open.{with_kind};
ghost use Rattle.annotation_spots.specs.Rows.{AreRows, IsIn};
ghost use Rattle.annotation_setting.specs.Timings.{count_of, is_leg as is_leg_kind, with_new, with_spot, with_timings};

use annotation_spots::Spot;
use circuit_open::OpenCircuit;
use sg_circuit::{ElementKind, LegTiming};

/// How many new timings there are.
pub fn count_new(timings: &[Option<Box<LegTiming>>]) -> usize
    ensures { result ≡ length (filter (λ t. is_some t) timings.now) }
{
    timings.iter().filter(|timing| timing.is_some()).count()
}

fn is_leg(kind: ElementKind) -> bool
    ensures { result ≡ is_leg_kind kind }
{
    matches!(kind, ElementKind::Leg { .. })
}

fn set_spot(opened: &mut OpenCircuit, spot: Spot, timing: LegTiming)
    requires row { IsIn opened.old.circuit spot }
    requires room { 0 < opened.old.room }
    requires timing { AreTimings (leg_timing_seen timing) }
    ensures { opened.new ≡ record { circuit = with_kind (with_spot spot.path (leg_timing_seen timing)) spot.element opened.old.circuit; room = opened.old.room - 1 } }
{
    if is_leg(opened.parts().elements[spot.element as usize].kind) {
        opened.set_leg(spot.element, timing);
    } else {
        opened.set_path(spot.element, spot.path as usize, timing);
    }
}

fn set_new(opened: &mut OpenCircuit, spot: Spot, timing: &Option<Box<LegTiming>>)
    requires row { IsIn opened.old.circuit spot }
    requires room { count_of timing.now ≤ opened.old.room }
    requires timing { IfSome timing.now (λ b. AreTimings (leg_timing_seen b.value)) }
    ensures { opened.new ≡ record { circuit = with_new spot timing.now opened.old.circuit; room = opened.old.room - count_of timing.now } }
{
    match timing {
        Some(new) => set_spot(opened, spot, **new),
        None => {}
    }
}

/// Sets the new timings, in the order of the rows.
pub fn set_timings(opened: &mut OpenCircuit, rows: &[Spot], timings: &[Option<Box<LegTiming>>])
    requires rows { AreRows opened.old.circuit rows.now }
    requires timing_of_each { length timings.now ≡ length rows.now }
    requires timings { All (λ t. IfSome t (λ b. AreTimings (leg_timing_seen b.value))) timings.now }
    requires room { length (filter (λ t. is_some t) timings.now) ≤ opened.old.room }
    ensures { opened.new.circuit ≡ with_timings timings.now opened.old.circuit }
{
    for (index, timing) in timings.iter().enumerate() {
        set_new(opened, rows[index], timing);
    }
}
