// The lists of elements and their places.
ghost use Rattle.std.specs.Prelude.{◌≡◌, ◌≤◌, ◌<◌, ◌+◌, ◌^◌, ◌++◌, ◌∷◌, [], ℕ, OnOk, IfErr, length};
ghost use Rattle.elab_numbering.specs.Refusals.{RefusesCount};
ghost use Rattle.elab_elements.specs.Puts.{put, Puts, RefusesPuts};

use elab_model::ElabKind;
use sg_circuit::{Element, ElementKind, NetId};
use sg_text::{Place, Refused};
use smallvec::SmallVec;

const MOST_ELEMENTS: usize = 4_194_304;

/// Elements, and where the text has each.
#[derive(Debug, Drop)]
pub struct Placing {
    pub elements: Vec<Element>,
    pub places: Vec<Place>,
}

/// That there are too many elements.
pub fn too_many() -> Refused<ElabKind>
    ensures { (count : ℕ) → 2 ^ 22 < count → RefusesCount count result }
{
    Refused::Fault {
        kind: ElabKind::TooMany,
        place: Place { file: 0, byte: 0 },
    }
}

/// Adds an element, unless there are as many as there may be.
pub fn push_element(
    element: Element,
    place: Place,
    made: &mut Placing,
) -> Result<(), Refused<ElabKind>>
    requires few { length made.old.elements.items ≤ 2 ^ 22 }
    ensures few { length made.new.elements.items ≤ 2 ^ 22 }
    ensures elements { OnOk result (made.new.elements.items ≡ made.old.elements.items ++ element ∷ []) }
    ensures places { OnOk result (made.new.places.items ≡ made.old.places.items ++ place ∷ []) }
    ensures refused { IfErr result (λ r. (more : ℕ) → RefusesCount (length made.old.elements.items + 1 + more) r) }
{
    if made.elements.len() >= MOST_ELEMENTS {
        return Err(too_many());
    }
    made.elements.push(element)?;
    made.places.push(place)?;
    Ok(())
}

/// Adds an element that reads these nets.
pub fn add_element(
    scope: u32,
    place: Place,
    inputs: &[NetId],
    output: NetId,
    kind: ElementKind,
    made: &mut Placing,
) -> Result<(), Refused<ElabKind>>
    requires few { length made.old.elements.items ≤ 2 ^ 22 }
    ensures few { length made.new.elements.items ≤ 2 ^ 22 }
    ensures puts { OnOk result (Puts made.old made.new (put scope place inputs.now output kind ∷ [])) }
    ensures refused { IfErr result (RefusesPuts made.old (put scope place inputs.now output kind ∷ [])) }
{
    let inputs = SmallVec::from_slice(*made.elements.allocator(), inputs)?;
    let element = Element {
        scope,
        inputs,
        output,
        kind,
    };
    push_element(element, place, made)
}
