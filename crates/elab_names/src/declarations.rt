// What is refused in the declarations of a module.
ghost use Rattle.std.specs.Prelude.{◌≡◌, [], OnOk, IfErr, map};
ghost use Rattle.vl_tree.specs.Seen.{view_module};
ghost use Rattle.elab_model.specs.Faults.{RefusesOneOf};
ghost use Rattle.elab_model.specs.NameFaults as def;
ghost use Rattle.elab_names.specs.GivenRanges.{range_faults, width_faults, view_range};

use crate::{NamedRange, check_names, first_differing, first_too_wide, named_ranges};
use elab_model::ElabKind;
use sg_text::Refused;
use std::alloc::Global;
use vl_tree::Module;

/// Refuses a module for its declarations (IEEE 1364-2005, 4.2, 4.3, 12.3.3): besides what `check_names` refuses, a port and its
/// own net of different ranges (WidthMismatch; the second is the place), and a vector of more than 65536 bits (TooMany). Takes memory in proportion to the names.
pub fn check_declarations(alloc: Global, definition: &Module) -> Result<(), Refused<ElabKind>>
    ensures faultless { OnOk result (def.declaration_faults (view_module definition.now) ≡ []) }
    ensures refused { IfErr result (RefusesOneOf (def.declaration_faults (view_module definition.now))) }
{
    check_names(alloc, definition)?;
    let ranges = named_ranges(alloc, definition)?;
    check_agreement(alloc, &ranges)?;
    check_widths(&ranges)?;
    Ok(())
}

// No name has two ranges. Each was declared once as a port and once as a net at most, so that two are a port and its own net.
fn check_agreement(alloc: Global, ranges: &[NamedRange]) -> Result<(), Refused<ElabKind>>
    ensures faultless { OnOk result (range_faults (map view_range ranges.now) ≡ []) }
    ensures refused { IfErr result (RefusesOneOf (range_faults (map view_range ranges.now))) }
{
    match first_differing(alloc, ranges)? {
        Some(place) => Err(Refused::Fault {
            kind: ElabKind::WidthMismatch,
            place,
        }),
        None => Ok(()),
    }
}

// No range has too many bits.
fn check_widths(ranges: &[NamedRange]) -> Result<(), Refused<ElabKind>>
    ensures faultless { OnOk result (width_faults (map view_range ranges.now) ≡ []) }
    ensures refused { IfErr result (RefusesOneOf (width_faults (map view_range ranges.now))) }
{
    match first_too_wide(ranges) {
        Some(place) => Err(Refused::Fault {
            kind: ElabKind::TooMany,
            place,
        }),
        None => Ok(()),
    }
}
