// Where nets stand among the variables of a scope, for many nets at once.
ghost use Rattle.std.specs.Prelude.{◌≡◌, ◌<◌, ◌≤◌, All, IfOk, length, map};
ghost use Rattle.sg_circuit.specs.Seen.{variable_seen};
ghost use Rattle.written_text.specs.Places.{HasMore, HasPlaces, bits_place, place_at, place_if_at, variables_place};

use sg_circuit::Variable;
use sg_text::NoMemory;
use std::alloc::Global;

/// The first variable of a scope that has a net, and the position of the net among its bits. The mark says of which scope.
#[derive(Clone, Copy, Debug, PartialEq, Eq)]
pub struct BitPlace {
    pub mark: u32,
    pub variable: usize,
    pub bit: usize,
}

/// A table for so many nets, in which none has a place.
pub fn no_places(alloc: Global, nets: usize) -> Result<Vec<BitPlace>, NoMemory>
    ensures nets { IfOk result (λ v. length v.items ≡ nets) }
    ensures marks { IfOk result (λ v. All (λ p. p.mark ≤ 0) v.items) }
{
    let nowhere = BitPlace {
        mark: 0,
        variable: 0,
        bit: 0,
    };
    let places = vec![in alloc; nowhere; nets]?;
    Ok(places)
}

fn place_bit(places: &mut [BitPlace], net: u32, place: BitPlace)
    requires net { net < length places.old }
    ensures more { HasMore place.mark places.old places.new (place_if_at place.variable place.bit net) }
    ensures marks { All (λ p. p.mark ≤ place.mark) places.old → All (λ p. p.mark ≤ place.mark) places.new }
{
    if places[net as usize].mark != place.mark {
        places[net as usize] = place;
    }
}

fn place_bits(places: &mut [BitPlace], mark: u32, variable: usize, bits: &[u32])
    requires nets { All (λ n. n < length places.old) bits.now }
    ensures more { HasMore mark places.old places.new (bits_place variable 0 bits.now) }
    ensures marks { All (λ p. p.mark ≤ mark) places.old → All (λ p. p.mark ≤ mark) places.new }
{
    for (bit, net) in bits.iter().enumerate() {
        place_bit(
            places,
            *net,
            BitPlace {
                mark,
                variable,
                bit,
            },
        );
    }
}

/// Gives places to the nets of these variables, where no net has this mark.
pub fn place_variables(places: &mut [BitPlace], mark: u32, variables: &[Variable])
    requires nets { All (λ v. All (λ n. n < length places.old) v.bits.items) variables.now }
    requires fresh { All (λ p. p.mark < mark) places.old }
    ensures placed { HasPlaces mark places.new (map (λ v. variable_seen v) variables.now) }
    ensures marks { All (λ p. p.mark ≤ mark) places.new }
{
    for (variable, item) in variables.iter().enumerate() {
        place_bits(places, mark, variable, &item.bits);
    }
}

/// The variable of a net and its position there, where the net has a place of this mark.
pub fn place_of(places: &[BitPlace], mark: u32, net: u32) -> Option<(usize, usize)>
    requires { net < length places.now }
    ensures { result ≡ place_at places.now mark net }
{
    let place = places[net as usize];
    if place.mark != mark {
        return None;
    }
    Some((place.variable, place.bit))
}
