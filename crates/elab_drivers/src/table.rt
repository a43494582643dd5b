// The table of drivers.
ghost use Rattle.std.specs.Prelude.{◌≡◌, ◌<◌, ◌^◌, map, length, All, IfOk, IfErr};
ghost use Rattle.elab_model.specs.Faults.{RefusesOneOf};
ghost use Rattle.circuit_model.specs.Driving.{driving_faults};
ghost use Rattle.elab_drivers.specs.Tables.{driving_of, HasDrivers};
ghost use Rattle.sg_text.specs.declared.refusals.Refused.TheVariants.{Fault};
ghost use Rattle.elab_model.specs.declared.kinds.ElabKind.TheVariants.{SecondDriver};

use crate::places::place_of_driver;
use elab_model::ElabKind;
use elab_numbering::{drive_inputs, drive_outputs, drive_regs};
use sg_circuit::{Driver, Element, NetId};
use sg_text::{Place, Refused};
use std::alloc::Global;

/// The driver of each of `nets` nets (IEEE 1364-2005, 6.1, 7.1, 15.5): the stimulus for `inputs`, the bits of the top's input ports; elements, by
/// their numbers, for their outputs; and timing checks for `regs`. Each input has the place of its port in `input_places`, each element its own in `places`.
/// Refuses a net's second driver (SecondDriver, at the second, where inputs stand before elements), and a reg that the stimulus or an element
/// drives (BadTerminal, at what drives it). Takes memory in proportion to the nets.
pub fn drivers(
    alloc: Global,
    nets: u32,
    inputs: &[NetId],
    input_places: &[Place],
    elements: &[Element],
    places: &[Place],
    regs: &[NetId],
) -> Result<Vec<Driver>, Refused<ElabKind>>
    requires few { length elements.now < 2 ^ 32 }
    requires input_places { length input_places.now ≡ length inputs.now }
    requires places { length places.now ≡ length elements.now }
    requires inputs { All (λ n. n < nets) inputs.now }
    requires outputs { All (λ e. e.output < nets) elements.now }
    requires regs { All (λ n. n < nets) regs.now }
    ensures drivers { IfOk result (λ ds. HasDrivers nets (driving_of inputs.now input_places.now (map (λ e. e.output) elements.now) places.now regs.now) ds.items) }
    ensures refused { IfErr result (RefusesOneOf (driving_faults (driving_of inputs.now input_places.now (map (λ e. e.output) elements.now) places.now regs.now) nets)) }
{
    let mut drivers = vec![in alloc; Driver::Nobody; nets as usize]?;
    if let Err(second) = drive_inputs(inputs, &mut drivers) {
        return Err(second_driver(input_places[second]));
    }
    if let Err(second) = drive_outputs(elements, &mut drivers) {
        return Err(second_driver(places[second as usize]));
    }
    if let Err(reg) = drive_regs(regs, &mut drivers) {
        return Err(Refused::Fault {
            kind: ElabKind::BadTerminal,
            place: place_of_driver(reg, inputs, input_places, elements, places),
        });
    }
    Ok(drivers)
}

fn second_driver(place: Place) -> Refused<ElabKind>
    ensures { result ≡ Fault SecondDriver place }
{
    Refused::Fault {
        kind: ElabKind::SecondDriver,
        place,
    }
}
