// The places of a circuit, and how they are found.
ghost use Rattle.std.specs.Prelude.{◌≡◌, IfOk};
ghost use Rattle.sg_circuit.specs.Seen.{circuit_seen};
ghost use Rattle.annotation_places.specs.Places.{ArePlaces};

use crate::{place_indexes, scope_indexes, variable_index};
use annotation_index::Index;
use annotation_spots::{Numbering, Spot};
use sg_circuit::{Circuit, Parts};
use sg_text::NoMemory;
use std::alloc::Global;

/// A circuit's parts, its legs and specify paths in order, and indexes of instances by the scope in which they stand and their name, of
/// scopes by their module, of legs and paths by the element that they lead to and by their scope, of timing checks by the net of their
/// reference, and of variables by their scope and name.
#[derive(Drop)]
pub struct Places<'a> {
    pub parts: &'a Parts,
    pub spots: Vec<Spot>,
    pub(crate) firsts: Vec<u32>,
    pub(crate) inside: Index<'a>,
    pub(crate) modules: Index<'a>,
    pub(crate) standing: Index<'a>,
    pub(crate) referring: Index<'a>,
    pub(crate) variables: Index<'a>,
}

impl<'a> Places<'a> {
    /// Takes memory in proportion to the circuit.
    pub fn of(alloc: Global, circuit: &'a Circuit) -> Result<Places<'a>, NoMemory>
        ensures places { IfOk result (λ p. ArePlaces p) }
        ensures seen { IfOk result (λ p. circuit_seen p.parts.now ≡ circuit.now) }
    {
        let parts = circuit.parts();
        let Numbering { spots, firsts } = annotation_spots::number(alloc, circuit)?;
        let inside = scope_indexes::instances(alloc, parts)?;
        let modules = scope_indexes::modules(alloc, parts)?;
        let standing = place_indexes::spots_by_scope(alloc, parts, &spots)?;
        let referring = place_indexes::checks_by_reference(alloc, parts)?;
        let variables = variable_index::variables(alloc, parts)?;
        Ok(Places {
            parts,
            spots,
            firsts,
            inside,
            modules,
            standing,
            referring,
            variables,
        })
    }
}
