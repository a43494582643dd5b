// The inputs of the top, found by their names.
ghost use Rattle.std.specs.Prelude.{◌≡◌, OnOk, IfOk, List, ℕ, map, bytes_eq};
ghost use Rattle.std.specs.List.{list_all};
ghost use Rattle.sg_circuit.specs.Circuit.{scope_at};
ghost use Rattle.sg_circuit.specs.Seen.{variable_seen};
ghost use Rattle.stim_read.specs.Inputs as def;
ghost use Rattle.stim_read.specs.ByName.{place_in, one_more, is_input_of, ArePlaces};

use indexmap::IndexMap;
use sg_circuit::{Circuit, Driver, NetId, Variable};
use sg_text::NoMemory;
use std::alloc::Global;

/// The inputs of a circuit's top, found by their names.
#[derive(Drop)]
pub struct Inputs<'c> {
    pub circuit: &'c Circuit,
    // where the first input of a name stands among the variables of the top
    places: IndexMap<&'c [u8], usize>,
    ghost first: { ArePlaces circuit.now (scope_at circuit.now 0).variables places },
}

impl<'c> Inputs<'c> {
    ghost use Rattle.std.specs.Prelude.{◌≡◌, IfOk, option_map};
    ghost use Rattle.sg_circuit.specs.Seen.{variable_seen};
    ghost use Rattle.stim_read.specs.Inputs.{input_named};

    /// The inputs of the top of a circuit. Takes memory in proportion to their number.
    pub fn of(alloc: Global, circuit: &'c Circuit) -> Result<Inputs<'c>, NoMemory>
        ensures { IfOk result (λ inputs. inputs.circuit.now ≡ circuit.now) }
    {
        let places = places_of(alloc, circuit, top_variables(circuit))?;
        Ok(Inputs { circuit, places })
    }

    /// The input of a name.
    pub fn named(&self, name: &[u8]) -> Option<&'c Variable>
        ensures { option_map (λ v. variable_seen v.now) result ≡ input_named self.now.circuit.now name.now }
    {
        let place = self.places.get(name)?;
        top_variables(self.circuit).get(*place)
    }
}

fn is_stimulated(driver: Driver) -> bool
    ensures { result ≡ def.is_stimulated driver }
{
    matches!(driver, Driver::Stimulus)
}

fn is_input_net(circuit: &Circuit, net: NetId) -> bool
    ensures { result ≡ def.is_input_net circuit.now net }
{
    match circuit.parts().nets.get(net as usize) {
        Some(item) => is_stimulated(item.driver),
        None => false,
    }
}

fn are_input_nets(circuit: &Circuit, nets: &[NetId]) -> bool
    ensures { result ≡ list_all (def.is_input_net circuit.now) nets.now }
{
    nets.iter().all(|net| is_input_net(circuit, *net))
}

// The variables of the top.
fn top_variables(circuit: &Circuit) -> &[Variable]
    ensures { map (λ v. variable_seen v) result.now ≡ (scope_at circuit.now 0).variables }
{
    match circuit.parts().scopes.first() {
        Some(scope) => &scope.variables,
        None => &[],
    }
}

// Where the first input of each name stands among some variables.
fn places_of<'c>(
    alloc: Global,
    circuit: &Circuit,
    variables: &'c [Variable],
) -> Result<IndexMap<&'c [u8], usize>, NoMemory>
    ensures { IfOk result (λ places. ArePlaces circuit.now (map (λ v. variable_seen v) variables.now) places) }
{
    let mut places: IndexMap<&[u8], usize> = IndexMap::new(alloc);
    for (place, variable) in variables.iter().enumerate() {
        add_variable(circuit, variable, place, &mut places)?;
    }
    Ok(places)
}

// A variable more, at its place: it counts only if it is an input.
fn add_variable<'c>(
    circuit: &Circuit,
    variable: &'c Variable,
    place: usize,
    places: &mut IndexMap<&'c [u8], usize>,
) -> Result<(), NoMemory>
    ensures { OnOk result ((name : List ℕ) → place_in places.new name ≡ one_more (place_in places.old name) (is_input_of circuit.now name (variable_seen variable.now)) place) }
{
    if are_input_nets(circuit, &variable.bits) {
        add_place(variable.name.bytes(), place, places)?;
    }
    Ok(())
}

// A place for a name that has none yet.
fn add_place<'c>(
    name: &'c [u8],
    place: usize,
    places: &mut IndexMap<&'c [u8], usize>,
) -> Result<(), NoMemory>
    ensures { OnOk result ((n : List ℕ) → place_in places.new n ≡ one_more (place_in places.old n) (bytes_eq name.now n) place) }
{
    if !places.contains_key(name) {
        places.insert(name, place)?;
    }
    Ok(())
}
