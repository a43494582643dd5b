// The keys of entries, with numbers for edges, parts and conditions.
ghost use Rattle.std.specs.Prelude.{◌≡◌, ◌<◌, ℕ, ℤ, List, IfSome, length, map, option_map};
ghost use Rattle.sg_circuit.specs.PathsSeen.{IsIndexedCondition};
ghost use Rattle.sg_circuit.specs.ChecksSeen.{AreWritten};
ghost use Rattle.written_model.specs.Entries.{edge_of, parts_of};
ghost use Rattle.written_faults.specs.Keys.{condition_code, datum_code, edge_code, event_code, event_codes, part_number, parts_with, path_code, written_code};

use sdf_tree::Edge;
use sg_circuit::{CheckConditions, CheckKind, CheckTiming, Event, NetId, Path, PathCondition};
use written_entries::edge_of;
use written_model::Part;

/// A path's input and output, its edge, and its condition.
pub type PathCode = (NetId, NetId, u32, Option<Option<usize>>);

/// An event's net, its edge, and its condition.
pub type EventCode = (NetId, u32, Option<usize>);

/// A part of a timing check, and its events.
pub type PartCode = (u32, EventCode, Option<EventCode>);

fn edge_code(edge: Option<sg_logic::Edge>) -> u32
    ensures { result ≡ edge_code (edge_of edge) }
{
    match edge_of(edge) {
        None => 0,
        Some(Edge::Posedge) => 1,
        Some(_) => 2,
    }
}

fn condition_code(classes: &[usize], condition: &PathCondition) -> Option<Option<usize>>
    requires { IsIndexedCondition (length classes.now) condition.now }
    ensures { result ≡ condition_code classes.now condition.now }
{
    match condition {
        PathCondition::Always => None,
        PathCondition::IfNone => Some(None),
        PathCondition::If { written, .. } => Some(Some(classes[*written])),
    }
}

pub fn path_code(classes: &[usize], output: NetId, path: &Path) -> PathCode
    requires { IsIndexedCondition (length classes.now) path.now.condition }
    ensures { result ≡ path_code classes.now output path.now }
{
    (
        path.input,
        output,
        edge_code(path.edge),
        condition_code(classes, &path.condition),
    )
}

fn written_code(classes: &[usize], written: Option<usize>) -> Option<usize>
    requires { IfSome written (λ w. w < length classes.now) }
    ensures { result ≡ written_code classes.now written }
{
    match written {
        Some(place) => Some(classes[place]),
        None => None,
    }
}

fn event_code(classes: &[usize], event: &Event, written: Option<usize>) -> EventCode
    requires { IfSome written (λ w. w < length classes.now) }
    ensures { result ≡ event_code classes.now event.now written }
{
    (
        event.net,
        edge_code(event.edge),
        written_code(classes, written),
    )
}

fn datum_code(classes: &[usize], datum: &Option<Event>, written: Option<usize>) -> Option<EventCode>
    requires { IfSome written (λ w. w < length classes.now) }
    ensures { result ≡ datum_code classes.now datum.now written }
{
    match datum {
        Some(event) => Some(event_code(classes, event, written)),
        None => None,
    }
}

/// The events of a timing check.
pub fn event_codes(
    classes: &[usize],
    timing: &CheckTiming,
    written: CheckConditions,
) -> (EventCode, Option<EventCode>)
    requires { AreWritten (length classes.now) written }
    ensures { result ≡ event_codes classes.now timing.now written }
{
    (
        event_code(classes, &timing.refer, written.refer),
        datum_code(classes, &timing.datum, written.datum),
    )
}

/// The part of a timing check for which its first limit is, and that for which its second is.
pub fn parts_of(kind: CheckKind) -> (Part, Option<Part>)
    ensures { (limits : List ℤ) → parts_of kind limits ≡ parts_with result limits }
{
    match kind {
        CheckKind::Setup => (Part::Setup, None),
        CheckKind::Hold => (Part::Hold, None),
        CheckKind::Recovery => (Part::Recovery, None),
        CheckKind::Removal => (Part::Removal, None),
        CheckKind::Skew => (Part::Skew, None),
        CheckKind::Setuphold => (Part::Setup, Some(Part::Hold)),
        CheckKind::Recrem => (Part::Recovery, Some(Part::Removal)),
        CheckKind::Width => (Part::Width, None),
        CheckKind::Period => (Part::Period, None),
    }
}

pub fn part_number(part: Part) -> u32
    ensures { result ≡ part_number part }
{
    match part {
        Part::Setup => 0,
        Part::Hold => 1,
        Part::Recovery => 2,
        Part::Removal => 3,
        Part::Skew => 4,
        Part::Width => 5,
        Part::Period => 6,
    }
}
