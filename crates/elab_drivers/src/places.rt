// Where it is said that a net is driven.
ghost use Rattle.std.specs.Prelude.{◌≡◌, ◌++◌, ◌==◌, map, length, position};
ghost use Rattle.elab_numbering.specs.Driving.{IsTaken, by_stimulus, by_elements};
ghost use Rattle.elab_drivers.specs.Drivers.{IsPlaceOfDriver};

use sg_circuit::{Element, NetId};
use sg_text::Place;

/// The place of an input that is this net, or else of an element that drives it; one of them does.
pub fn place_of_driver(
    net: NetId,
    inputs: &[NetId],
    input_places: &[Place],
    elements: &[Element],
    places: &[Place],
) -> Place
    requires driven { IsTaken net (map by_stimulus inputs.now ++ by_elements 0 (map (λ e. e.output) elements.now)) }
    requires input_places { length input_places.now ≡ length inputs.now }
    requires places { length places.now ≡ length elements.now }
    ensures { IsPlaceOfDriver net inputs.now input_places.now (map (λ e. e.output) elements.now) places.now result }
{
    if let Some(input) = input_of(net, inputs) {
        return input_places[input];
    }
    match element_of(net, elements) {
        Some(element) => places[element],
        None => unreachable!(),
    }
}

fn input_of(net: NetId, inputs: &[NetId]) -> Option<usize>
    ensures { result ≡ position (λ n. n == net) inputs.now }
{
    inputs.iter().position(|input| *input == net)
}

fn element_of(net: NetId, elements: &[Element]) -> Option<usize>
    ensures { result ≡ position (λ e. e.output == net) elements.now }
{
    elements.iter().position(|element| element.output == net)
}
