// Lists of delays.
ghost use Rattle.std.specs.Prelude.{◌≡◌, IfOk, Ok, map, flat_map};
ghost use Rattle.vl_tree.specs.Seen.{view_amounts};
ghost use Rattle.specify_model.specs.Faults as faults;
ghost use Rattle.specify_model.specs.Values as def;
ghost use Rattle.specify_values.specs.Seen.{measured, values_of};
ghost use Rattle.specify_values.specs.Telling.{Tells};

use crate::amounts::delay_ticks;
use crate::measures::Measure;
use crate::parameters::Parameters;
use elab_model::ElabKind;
use sg_delay::{Delays12, expand};
use sg_text::{Place, Refused};
use std::alloc::Global;
use vl_tree::Amounts;

/// The delays of the twelve transitions, in ticks, from a list of 1, 2, 3, 6 or 12 that stands at a place (IEEE 1364-2005, 14.3.1). Refuses one that `delay_ticks` does, and a
/// list of another length (BadDelay, at the place). Takes memory in proportion to the list.
pub fn path_delays(
    alloc: Global,
    by: Measure,
    parameters: &Parameters,
    place: Place,
    delays: &[Amounts],
) -> Result<Delays12, Refused<ElabKind>>
    ensures delays { IfOk result (λ d. def.expanded (measured by) (values_of parameters.now) (map view_amounts delays.now) ≡ Ok d) }
    ensures told { Tells (faults.list_faults (measured by) (values_of parameters.now) place (map view_amounts delays.now)) result }
{
    let list = all_ticks(alloc, by, parameters, delays)?;
    match expand(&list) {
        Ok(delays) => Ok(delays),
        Err(_) => Err(Refused::Fault {
            kind: ElabKind::BadDelay,
            place,
        }),
    }
}

fn all_ticks(
    alloc: Global,
    by: Measure,
    parameters: &Parameters,
    delays: &[Amounts],
) -> Result<Vec<u64>, Refused<ElabKind>>
    ensures ticks { IfOk result (λ list. list.items ≡ map (def.delay_ticks (measured by) (values_of parameters.now)) (map view_amounts delays.now)) }
    ensures told { Tells (flat_map (faults.delay_faults (measured by) (values_of parameters.now)) (map view_amounts delays.now)) result }
{
    let mut list = Vec::new(alloc);
    for delay in delays {
        list.push(delay_ticks(by, parameters, delay)?)?;
    }
    Ok(list)
}
