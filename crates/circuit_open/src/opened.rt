// A circuit that is open for annotation: its timings, limits and delays can be set, with no memory taken.
ghost use Rattle.std.specs.Prelude.{◌≡◌, ◌+◌, ◌-◌, ◌<◌, ◌≤◌, ◌^◌, ◌∷◌, ◌++◌, [], All, IfOk, IfErr, IsTrue, length, slice_index_or, unsigned_abs, vec_len};
ghost use Rattle.std.specs.Vec.{vec_capacity};
ghost use Rattle.sg_circuit.specs.declared.checks.CheckTiming.{CheckTiming as TimingSeen};
ghost use Rattle.sg_circuit.specs.declared.elements.Element.{Element as ElementSeen};
ghost use Rattle.sg_circuit.specs.declared.paths.Path.{Path as PathSeen};
ghost use Rattle.sg_circuit.specs.Circuit.{element_at};
ghost use Rattle.sg_circuit.specs.Closed.{limit_count, AreTimings, IsLate, IsZeroOf};
ghost use Rattle.circuit_open.specs.Open.{changed_at, with_check_limit, with_kind, with_leg, with_limit, with_path, with_zeroed, place_in, HasPath, HasPathIn, IsLeg, IsLight};
ghost use Rattle.sg_circuit.specs.Seen.{circuit_seen, AreIndexed};
ghost use Rattle.sg_circuit.specs.TimingsSeen.{leg_timing_seen};
ghost use Rattle.late_limits.specs.Adjusted.{late_kind, IsAdjustedFrom};
ghost use Rattle.late_limits.specs.Adjustments.{IsAdjustmentOf};

use late_limits::Adjustment;
use sg_circuit::{CheckTiming, Circuit, Element, ElementKind, LegTiming, Parts, Path, Zero};
use std::marker::Model;

// Adds a timing to a table that has room for it, and tells its place.
fn add_timing(timings: &mut Vec<LegTiming>, timing: LegTiming) -> u32
    requires room { vec_len timings.old < vec_capacity timings.old }
    requires few { vec_len timings.old < 2 ^ 32 }
    ensures items { timings.new.items ≡ timings.old.items ++ timing ∷ [] }
    ensures place { result ≡ length timings.old.items }
    ensures len { vec_len timings.new ≡ vec_len timings.old + 1 }
    ensures capacity { vec_capacity timings.new ≡ vec_capacity timings.old }
{
    let place = timings.len() as u32;
    timings.push_reserved(timing);
    place
}

fn set_kind(elements: &mut Vec<Element>, element: u32, kind: ElementKind)
    requires { element < length elements.old.items }
    ensures { elements.new.items ≡ changed_at (λ (e : ElementSeen). record e { kind = kind }) element elements.old.items }
{
    elements[element as usize].kind = kind;
}

fn set_timing(paths: &mut Vec<Path>, path: usize, timing: usize)
    requires { path < length paths.old.items }
    ensures { paths.new.items ≡ changed_at (λ (p : PathSeen). record p { timing = timing }) path paths.old.items }
{
    paths[path].timing = timing;
}

fn change_limit(timings: &mut Vec<CheckTiming>, check: u32, part: usize, value: i64)
    requires check { check < length timings.old.items }
    requires part { part < 2 }
    ensures { timings.new.items ≡ changed_at (with_limit part value) check timings.old.items }
{
    timings[check as usize].limits[part] = value;
}

// The place in the table of paths of one of those to an element's output.
fn place_of(kind: ElementKind, path: usize) -> usize
    requires { HasPathIn path kind }
    ensures { result ≡ place_in kind path }
{
    match kind {
        ElementKind::Path { paths, .. } => paths.start as usize + path,
        _ => 0,
    }
}

// Makes room for so many timings more, and tells whether there is memory for them and they are few enough.
fn make_room(table: &mut Vec<LegTiming>, timings: usize) -> bool
    ensures items { table.new.items ≡ table.old.items }
    ensures room { IsTrue result → (vec_len table.new + timings ≤ vec_capacity table.new) × (vec_len table.new + timings < 2 ^ 32) }
{
    match table.len().checked_add(timings) {
        Some(all) if all <= u32::MAX as usize => table.reserve(timings).is_ok(),
        _ => false,
    }
}

/// A circuit that is open for annotation, with room for so many timings. Whatever is set, its parts fit together; and no call but
/// `reserve` takes memory.
#[derive(Drop)]
pub struct OpenCircuit {
    parts: Parts,
    room: usize,
}

impl Model for OpenCircuit {
    ghost use Rattle.std.specs.Prelude.{◌+◌, ◌<◌, ◌≤◌, ◌^◌, vec_len};
    ghost use Rattle.std.specs.Vec.{vec_capacity};
    ghost use Rattle.std.specs.Coded.{codes, coded_ℕ};
    ghost use Rattle.cond_expr.specs.Codes.{coded_cond};
    ghost use Rattle.circuit_open.specs.Open.{Open};

    ghost Value = { Open };

    ghost coded = { Prim.hlevel (codes, coded_cond coded_ℕ) };

    ghost use Rattle.sg_circuit.specs.Closed.{IsClosed};
    ghost use Rattle.sg_circuit.specs.Seen.{circuit_seen, AreIndexed};

    ghost view = { λ c. record { circuit = circuit_seen c.parts; room = c.room } };

    ghost invariant = { λ c. IsClosed (circuit_seen c.parts) × AreIndexed c.parts
        × (vec_len c.parts.leg_timings + c.room ≤ vec_capacity c.parts.leg_timings) × (vec_len c.parts.leg_timings + c.room < 2 ^ 32) };
}

impl OpenCircuit {
    /// Opens a circuit, with room for so many timings. It gives the circuit back where there is no memory for them, or where it would have 2^32.
    pub fn reserve(circuit: Circuit, timings: usize) -> Result<OpenCircuit, Circuit>
        ensures circuit { IfOk result (λ opened. opened.circuit ≡ circuit) }
        ensures room { IfOk result (λ opened. opened.room ≡ timings) }
        ensures kept { IfErr result (λ back. back ≡ circuit) }
    {
        let mut parts = circuit.into_parts();
        if !make_room(&mut parts.leg_timings, timings) {
            return Err(Circuit::close(parts));
        }
        Ok(OpenCircuit {
            parts,
            room: timings,
        })
    }

    /// Sets the timing of a leg, which takes one of the room.
    pub fn set_leg(&mut self, element: u32, timing: LegTiming)
        requires element { element < length self.old.circuit.elements }
        requires kind { IsLeg (element_at self.old.circuit element).kind }
        requires room { 0 < self.old.room }
        requires timing { AreTimings (leg_timing_seen timing) }
        ensures { self.new ≡ record { circuit = with_kind (with_leg (leg_timing_seen timing)) element self.old.circuit; room = self.old.room - 1 } }
    {
        let place = add_timing(&mut self.parts.leg_timings, timing);
        set_kind(
            &mut self.parts.elements,
            element,
            ElementKind::Leg { timing: place },
        );
        self.room -= 1;
    }

    /// Sets the timing of a specify path, by its place among those to the element's output. It takes one of the room.
    pub fn set_path(&mut self, element: u32, path: usize, timing: LegTiming)
        requires element { element < length self.old.circuit.elements }
        requires path { HasPath path (element_at self.old.circuit element).kind }
        requires room { 0 < self.old.room }
        requires timing { AreTimings (leg_timing_seen timing) }
        ensures { self.new ≡ record { circuit = with_kind (with_path path (leg_timing_seen timing)) element self.old.circuit; room = self.old.room - 1 } }
    {
        let path = place_of(self.parts.elements[element as usize].kind, path);
        let place = add_timing(&mut self.parts.leg_timings, timing);
        set_timing(&mut self.parts.paths, path, place as usize);
        self.room -= 1;
    }

    /// Sets a limit of a timing check, in ticks: the first of its text, or the second where its kind has two.
    pub fn set_limit(&mut self, check: u32, part: usize, value: i64)
        requires check { check < length self.old.circuit.check_timings }
        requires part { (t : TimingSeen) → part < limit_count (slice_index_or self.old.circuit.check_timings check t).kind }
        requires value { unsigned_abs value < 2 ^ 60 }
        requires light { IsLight self.old.circuit check value }
        ensures { self.new ≡ record { circuit = with_check_limit check part value self.old.circuit; room = self.old.room } }
    {
        change_limit(&mut self.parts.check_timings, check, part, value);
    }

    // Sets the delay of a Late, in ticks.
    fn set_late(&mut self, element: u32, delay: u64)
        requires element { element < length self.old.circuit.elements }
        requires kind { IsLate (element_at self.old.circuit element).kind }
        requires delay { delay < 2 ^ 60 }
        ensures { self.new ≡ record { circuit = with_kind (late_kind delay) element self.old.circuit; room = self.old.room } }
    {
        set_kind(
            &mut self.parts.elements,
            element,
            ElementKind::Late { delay },
        );
    }

    // Sets the limits that are taken as 0.
    fn set_zeroed(&mut self, zeroed: Vec<Zero>)
        requires { All (IsZeroOf self.old.circuit) zeroed.items }
        ensures { self.new ≡ record { circuit = with_zeroed zeroed.items self.old.circuit; room = self.old.room } }
    {
        self.parts.zeroed = zeroed;
    }

    /// Sets what limits below 0 ask of the circuit: the delays of its Lates, and the limits that are taken as 0 (IEEE 1364-2005, 15.8).
    pub fn adjust(&mut self, found: Adjustment)
        requires { IsAdjustmentOf self.old.circuit found }
        ensures circuit { IsAdjustedFrom self.old.circuit self.new.circuit }
        ensures room { self.new.room ≡ self.old.room }
    {
        let _ = &self.parts;
        for late in &found.delays {
            self.set_late(late.element, late.delay);
        }
        self.set_zeroed(found.zeroed);
    }

    /// Its parts as they stand.
    pub fn parts(&self) -> &Parts
        ensures seen { circuit_seen result.now ≡ self.now.circuit }
        ensures indexed { AreIndexed result.now }
    {
        &self.parts
    }

    /// How many timings there is room for.
    pub fn room(&self) -> usize
        ensures { result ≡ self.now.room }
    {
        self.room
    }

    /// The circuit, with what was set.
    pub fn close(self) -> Circuit
        ensures { result ≡ self.circuit }
    {
        Circuit::close(self.parts)
    }
}
