// The first number of a file that is none, and the first limits that cross.
ghost use Rattle.std.specs.Prelude.{◌≡◌, List, map};
ghost use Rattle.std.specs.List.{flat_map};
ghost use Rattle.std.specs.Option.{option_map};
ghost use Rattle.sdf_tree.specs.Faults as faults;
ghost use Rattle.sdf_tree.specs.Faults.{Crossing};
ghost use Rattle.sdf_tree.specs.Seen.{view_boxed, view_delay, view_file, view_limits, view_number, view_value};
ghost use Rattle.sdf_tree.specs.Written.{Number};
ghost use Rattle.sdf_meaning.specs.FirstFaults.{bad_number, crosses_within, crossing};

use crate::comparing::is_below;
use crate::numbers::{decimal_of, number_of};
use sdf_tree::{
    WrittenBody, WrittenCheck, WrittenCheckBody, WrittenDelay, WrittenEntry, WrittenFile,
    WrittenFilePart, WrittenGroup, WrittenHead, WrittenLimits, WrittenNumber, WrittenPart,
    WrittenValue,
};
use sg_text::Place;

// ---- numbers

fn is_bad(number: WrittenNumber<'_>) -> bool
    ensures { result ≡ faults.is_bad (view_number number.entry) }
{
    decimal_of(number.text).is_err()
}

fn bad_number(number: Option<WrittenNumber<'_>>) -> Option<Place>
    ensures { result ≡ bad_number (faults.listed (option_map view_number number.entry)) }
{
    let number = number?;
    if is_bad(number) {
        Some(number.place)
    } else {
        None
    }
}

#[tactic(auto, using(crate::proofs::FirstFaults::bad_behind))]
fn bad_in_value(value: WrittenValue<'_>) -> Option<Place>
    ensures { result ≡ bad_number (faults.value_numbers (view_value value.entry)) }
{
    let behind = bad_number(value.typ).or(bad_number(value.max));
    bad_number(value.min).or(behind)
}

fn bad_in_optional(value: Option<WrittenValue<'_>>) -> Option<Place>
    ensures { result ≡ bad_number (flat_map faults.value_numbers (faults.listed (option_map view_value value.entry))) }
{
    match value {
        Some(value) => bad_in_value(value),
        None => None,
    }
}

#[tactic(auto, using(crate::proofs::FirstFaults::bad_behind))]
fn bad_in_limits(limits: &WrittenLimits<'_>) -> Option<Place>
    ensures { result ≡ bad_number (faults.limits_numbers (view_limits limits.now)) }
{
    bad_in_value(limits.reject).or(bad_in_optional(limits.error))
}

fn bad_in_optional_limits(limits: &Option<Box<WrittenLimits<'_>>>) -> Option<Place>
    ensures { result ≡ bad_number (flat_map faults.limits_numbers (faults.listed (option_map view_boxed limits.now))) }
{
    match limits {
        Some(limits) => bad_in_limits(limits),
        None => None,
    }
}

// ---- limits

fn crosses_at(reject: Option<WrittenNumber<'_>>, error: Option<WrittenNumber<'_>>) -> bool
    ensures { result ≡ faults.crosses_at (option_map view_number reject.entry) (option_map view_number error.entry) }
{
    match (reject, error) {
        (Some(reject), Some(error)) => is_below(number_of(error), number_of(reject)),
        (None, _) => false,
        (Some(_), None) => false,
    }
}

fn crosses(reject: WrittenValue<'_>, error: WrittenValue<'_>) -> bool
    ensures { result ≡ crosses_within (view_value reject.entry) (view_value error.entry) }
{
    crosses_at(reject.min, error.min)
        || crosses_at(reject.typ, error.typ)
        || crosses_at(reject.max, error.max)
}

fn crossing_at(
    place: Place,
    reject: WrittenValue<'_>,
    error: Option<WrittenValue<'_>>,
) -> Option<Place>
    ensures { result ≡ crossing (faults.crossings_at place (view_value reject.entry) (option_map view_value error.entry)) }
{
    let error = error?;
    if crosses(reject, error) {
        Some(place)
    } else {
        None
    }
}

fn crossing_in_delay(delay: &WrittenDelay<'_>) -> Option<Place>
    ensures { result ≡ crossing (faults.delay_crossings (view_delay delay.now)) }
{
    match &delay.limits {
        Some(limits) => crossing_at(delay.place, limits.reject, limits.error),
        None => None,
    }
}

// ---- parts of a file

/// A part of a file, with values in it.
pub trait Valued {
    ghost Seen: { Type 0 };

    ghost view: { Self → Seen };

    ghost numbers: { Seen → List Number };

    ghost crossings: { Seen → List Crossing };

    /// Where the first word stands that is no number.
    fn bad_place(&self) -> Option<Place>
        ensures { result ≡ bad_number (numbers (view self.now)) };

    /// Where the first limits stand that cross.
    fn crossing_place(&self) -> Option<Place>
        ensures { result ≡ crossing (crossings (view self.now)) };
}

fn first_bad_number<T: Valued>(parts: &[T]) -> Option<Place>
    ensures { result ≡ bad_number (flat_map T.numbers (map T.view parts.now)) }
{
    for part in parts {
        if let Some(place) = part.bad_place() {
            return Some(place);
        }
    }
    None
}

fn first_crossing<T: Valued>(parts: &[T]) -> Option<Place>
    ensures { result ≡ crossing (flat_map T.crossings (map T.view parts.now)) }
{
    for part in parts {
        if let Some(place) = part.crossing_place() {
            return Some(place);
        }
    }
    None
}

impl<'a> Valued for WrittenDelay<'a> {
    ghost use Rattle.sdf_tree.specs.Faults.{delay_crossings, delay_numbers};
    ghost use Rattle.sdf_tree.specs.Seen.{view_delay};
    ghost use Rattle.sdf_tree.specs.Written.{Delay};

    ghost Seen = { Delay };

    ghost view = { view_delay };

    ghost numbers = { delay_numbers };

    ghost crossings = { delay_crossings };

    #[tactic(auto, using(crate::proofs::FirstFaults::bad_behind))]
    fn bad_place(&self) -> Option<Place> {
        bad_in_value(self.delay).or(bad_in_optional_limits(&self.limits))
    }

    fn crossing_place(&self) -> Option<Place> {
        crossing_in_delay(self)
    }
}

impl<'a> Valued for WrittenEntry<'a> {
    ghost use Rattle.sdf_tree.specs.Faults.{body_crossings, body_numbers};
    ghost use Rattle.sdf_tree.specs.Seen.{view_entry};
    ghost use Rattle.sdf_tree.specs.Written.{Entry};

    ghost Seen = { Entry };

    ghost view = { view_entry };

    ghost numbers = { λ e. body_numbers e.body };

    ghost crossings = { λ e. body_crossings e.body };

    #[tactic(auto, using(crate::proofs::FirstFaults::bad_behind))]
    fn bad_place(&self) -> Option<Place> {
        match &self.body {
            WrittenBody::IoPath {
                retains,
                delays,
                ..
            } => first_bad_number(retains).or(first_bad_number(delays)),
            WrittenBody::Port { delays, .. } => first_bad_number(delays),
            WrittenBody::Interconnect { delays, .. } => first_bad_number(delays),
            WrittenBody::Device { delays, .. } => first_bad_number(delays),
            WrittenBody::NetDelay { delays, .. } => first_bad_number(delays),
        }
    }

    #[tactic(auto, using(crate::proofs::FirstFaults::crossing_behind))]
    fn crossing_place(&self) -> Option<Place> {
        match &self.body {
            WrittenBody::IoPath {
                retains,
                delays,
                ..
            } => first_crossing(retains).or(first_crossing(delays)),
            WrittenBody::Port { delays, .. } => first_crossing(delays),
            WrittenBody::Interconnect { delays, .. } => first_crossing(delays),
            WrittenBody::Device { delays, .. } => first_crossing(delays),
            WrittenBody::NetDelay { delays, .. } => first_crossing(delays),
        }
    }
}

impl<'a> Valued for WrittenGroup<'a> {
    ghost use Rattle.sdf_tree.specs.Faults.{group_crossings, group_numbers};
    ghost use Rattle.sdf_tree.specs.Seen.{view_group};
    ghost use Rattle.sdf_tree.specs.Written.{Group};

    ghost Seen = { Group };

    ghost view = { view_group };

    ghost numbers = { group_numbers };

    ghost crossings = { group_crossings };

    #[tactic(auto, using(crate::proofs::FirstFaults::bad_behind))]
    fn bad_place(&self) -> Option<Place> {
        match self {
            WrittenGroup::Absolute(entries) => first_bad_number(entries),
            WrittenGroup::Increment(entries) => first_bad_number(entries),
            WrittenGroup::PathPulse { reject, error, .. } => {
                bad_in_value(*reject).or(bad_in_optional(*error))
            }
        }
    }

    fn crossing_place(&self) -> Option<Place> {
        match self {
            WrittenGroup::Absolute(entries) => first_crossing(entries),
            WrittenGroup::Increment(entries) => first_crossing(entries),
            WrittenGroup::PathPulse {
                place,
                reject,
                error,
                ..
            } => crossing_at(*place, *reject, *error),
        }
    }
}

impl<'a> Valued for WrittenCheck<'a> {
    ghost use Rattle.std.specs.Prelude.{[]};
    ghost use Rattle.sdf_tree.specs.Faults.{check_numbers};
    ghost use Rattle.sdf_tree.specs.Seen.{view_check};
    ghost use Rattle.sdf_tree.specs.Written.{Check};

    ghost Seen = { Check };

    ghost view = { view_check };

    ghost numbers = { λ c. check_numbers c.body };

    ghost crossings = { λ c. [] };

    #[tactic(auto, using(crate::proofs::FirstFaults::bad_behind))]
    fn bad_place(&self) -> Option<Place> {
        match &self.body {
            WrittenCheckBody::Pair { limit, .. } => bad_in_value(*limit),
            WrittenCheckBody::Window {
                first_limit,
                second_limit,
                ..
            } => bad_in_value(*first_limit).or(bad_in_value(*second_limit)),
            WrittenCheckBody::Single { limit, .. } => bad_in_value(*limit),
            WrittenCheckBody::Skipped(_) => None,
        }
    }

    fn crossing_place(&self) -> Option<Place> {
        None
    }
}

impl<'a> Valued for WrittenPart<'a> {
    ghost use Rattle.sdf_tree.specs.Faults.{part_crossings, part_numbers};
    ghost use Rattle.sdf_tree.specs.Seen.{view_part};
    ghost use Rattle.sdf_tree.specs.Written.{Part};

    ghost Seen = { Part };

    ghost view = { view_part };

    ghost numbers = { part_numbers };

    ghost crossings = { part_crossings };

    fn bad_place(&self) -> Option<Place> {
        match self {
            WrittenPart::Delays(groups) => first_bad_number(groups),
            WrittenPart::Checks(checks) => first_bad_number(checks),
            WrittenPart::Skipped { .. } => None,
        }
    }

    fn crossing_place(&self) -> Option<Place> {
        match self {
            WrittenPart::Delays(groups) => first_crossing(groups),
            WrittenPart::Checks(_) => None,
            WrittenPart::Skipped { .. } => None,
        }
    }
}

impl<'a> Valued for WrittenFilePart<'a> {
    ghost use Rattle.sdf_tree.specs.Faults.{file_crossings, file_numbers};
    ghost use Rattle.sdf_tree.specs.Seen.{view_file_part};
    ghost use Rattle.sdf_tree.specs.Written.{FilePart};

    ghost Seen = { FilePart };

    ghost view = { view_file_part };

    ghost numbers = { file_numbers };

    ghost crossings = { file_crossings };

    fn bad_place(&self) -> Option<Place> {
        match self {
            WrittenFilePart::Head(WrittenHead::Value(value)) => bad_in_optional(*value),
            WrittenFilePart::Head(_) => None,
            WrittenFilePart::Cell(cell) => first_bad_number(&cell.parts),
        }
    }

    fn crossing_place(&self) -> Option<Place> {
        match self {
            WrittenFilePart::Head(_) => None,
            WrittenFilePart::Cell(cell) => first_crossing(&cell.parts),
        }
    }
}

/// Where the first word of a file stands that is no number.
pub fn file_bad_number(file: &WrittenFile<'_>) -> Option<Place>
    ensures { result ≡ bad_number (flat_map faults.file_numbers (view_file file.now)) }
{
    first_bad_number(&file.parts)
}

/// Where the first limits of a file stand that cross.
pub fn file_crossing(file: &WrittenFile<'_>) -> Option<Place>
    ensures { result ≡ crossing (flat_map faults.file_crossings (view_file file.now)) }
{
    first_crossing(&file.parts)
}
