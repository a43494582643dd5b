// All legs and specify paths of a circuit.
ghost use Rattle.std.specs.Prelude.{◌≡◌, ◌<◌, ◌^◌, ◌++◌, All, IfOk, OnOk, length};
ghost use Rattle.sg_circuit.specs.Pins.{starts_from};
ghost use Rattle.annotation_spots.specs.Counts.{count_of, counts_of, rows_of, rows_from, IsOrdered};
ghost use Rattle.annotation_spots.specs.Rows.{AreRows, AreFirsts};

use crate::spots::Spot;
use sg_circuit::{Circuit, Element, ElementKind};
use sg_text::NoMemory;
use std::alloc::Global;

/// The legs and specify paths of a circuit in the order of its elements, and for each element how many those before it have; behind
/// the last element stands how many there are.
#[derive(Drop)]
pub struct Numbering {
    pub spots: Vec<Spot>,
    pub firsts: Vec<u32>,
}

// How many lead to the output of an element of a kind.
fn spot_count(kind: ElementKind) -> u32
    requires { IsOrdered kind }
    ensures { result ≡ count_of kind }
{
    match kind {
        ElementKind::Leg { .. } => 1,
        ElementKind::Path { paths, .. } => paths.end - paths.start,
        _ => 0,
    }
}

fn add_rows(spots: &mut Vec<Spot>, element: u32, count: u32) -> Result<(), NoMemory>
    ensures { OnOk result (spots.new.items ≡ spots.old.items ++ rows_of element count) }
{
    for path in 0..count {
        spots.push(Spot { element, path })?;
    }
    Ok(())
}

// Where there would be 2^32 or more, there is no memory for them.
fn number_elements(alloc: Global, elements: &[Element]) -> Result<Numbering, NoMemory>
    requires few { length elements.now < 2 ^ 31 }
    requires ordered { All (λ e. IsOrdered e.kind) elements.now }
    ensures rows { IfOk result (λ n. n.spots.items ≡ rows_from 0 (counts_of elements.now)) }
    ensures few { IfOk result (λ n. length n.spots.items < 2 ^ 32) }
    ensures firsts { IfOk result (λ n. n.firsts.items ≡ starts_from 0 (counts_of elements.now)) }
{
    let mut spots = Vec::new(alloc);
    let mut firsts = Vec::new(alloc);
    let mut first: u32 = 0;
    for (number, element) in elements.iter().enumerate() {
        firsts.push(first)?;
        let count = spot_count(element.kind);
        first = first.checked_add(count).ok_or(NoMemory)?;
        add_rows(&mut spots, number as u32, count)?;
    }
    firsts.push(first)?;
    Ok(Numbering { spots, firsts })
}

/// Numbers them. Takes memory in proportion to the circuit.
pub fn number(alloc: Global, circuit: &Circuit) -> Result<Numbering, NoMemory>
    ensures rows { IfOk result (λ n. AreRows circuit.now n.spots.items) }
    ensures few { IfOk result (λ n. length n.spots.items < 2 ^ 32) }
    ensures firsts { IfOk result (λ n. AreFirsts circuit.now n.firsts.items) }
{
    number_elements(alloc, &circuit.parts().elements)
}
