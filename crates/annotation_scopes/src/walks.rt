// Scopes that names lead to, and from which they lead.
ghost use Rattle.std.specs.Prelude.{◌≡◌, ◌<◌, ◌∷◌, [], All, IfOk, IfSome, Some, length, reverse};
ghost use Rattle.std.specs.List.{flat_map};
ghost use Rattle.sg_circuit.specs.Seen.{circuit_seen};
ghost use Rattle.annotation_index.specs.Candidates as candidates;
ghost use Rattle.annotation_model.specs.Scopes as model;
ghost use Rattle.annotation_places.specs.Places.{ArePlaces, lookups_of};
ghost use Rattle.annotation_scopes.specs.Walks.{names_seen};

use annotation_places::Places;
use sg_text::NoMemory;
use std::alloc::Global;

// The scopes to which one name leads from some.
fn below(
    alloc: Global,
    places: &Places<'_>,
    name: &[u8],
    scopes: &[u32],
) -> Result<Vec<u32>, NoMemory>
    requires places { ArePlaces places.now }
    ensures items { IfOk result (λ v. v.items ≡ flat_map (λ s. (lookups_of places.now).inside s name.now) scopes.now) }
    ensures within { IfOk result (λ v. All (λ s. s < length places.now.parts.now.scopes.items) v.items) }
{
    let mut found = Vec::new(alloc);
    for scope in scopes {
        found.extend_from_slice(places.inside(*scope, name))?;
    }
    Ok(found)
}

/// The scopes to which names lead from a scope. More than one has a name only where instances of one scope share it.
pub fn descend(
    alloc: Global,
    places: &Places<'_>,
    names: &[Vec<u8>],
    scope: u32,
) -> Result<Vec<u32>, NoMemory>
    requires places { ArePlaces places.now }
    requires scope { scope < length places.now.parts.now.scopes.items }
    ensures items { IfOk result (λ v. v.items ≡ candidates.descend (lookups_of places.now).inside (names_seen names.now) scope) }
    ensures within { IfOk result (λ v. All (λ s. s < length places.now.parts.now.scopes.items) v.items) }
{
    let mut scopes = vec![in alloc; scope]?;
    for name in names {
        scopes = below(alloc, places, name, &scopes)?;
    }
    Ok(scopes)
}

// The scope in which a scope stands, if the name is its own.
fn above(places: &Places<'_>, name: &[u8], scope: u32) -> Option<u32>
    requires places { ArePlaces places.now }
    requires scope { scope < length places.now.parts.now.scopes.items }
    ensures found { result ≡ model.climb (circuit_seen places.now.parts.now) (name.now ∷ []) (Some scope) }
    ensures within { IfSome result (λ s. s < length places.now.parts.now.scopes.items) }
{
    let scope = &places.parts.scopes[scope as usize];
    if scope.name.bytes() != name {
        return None;
    }
    scope.parent
}

/// The scope from which names lead to a scope: the last name is the scope's own.
pub fn climb(places: &Places<'_>, names: &[Vec<u8>], scope: u32) -> Option<u32>
    requires places { ArePlaces places.now }
    requires scope { scope < length places.now.parts.now.scopes.items }
    ensures found { result ≡ model.climb (circuit_seen places.now.parts.now) (reverse (names_seen names.now)) (Some scope) }
    ensures within { IfSome result (λ s. s < length places.now.parts.now.scopes.items) }
{
    let mut left = names;
    let mut at = scope;
    'more: while let Some((name, before)) = left.split_last() {
        at = above(places, name, at)?;
        left = before;
    }
    Some(at)
}
