// The legs, paths and timing checks that may be what an entry asks for: what leads to the nets of a port, or stands in scopes.
ghost use Rattle.std.specs.Prelude.{◌≡◌, ◌<◌, ◌++◌, All, IfOk, OnOk, length, map};
ghost use Rattle.std.specs.List.{flat_map};
ghost use Rattle.sg_circuit.specs.Circuit.{scope_at};
ghost use Rattle.sg_circuit.specs.Seen.{circuit_seen};
ghost use Rattle.annotation_index.specs.Candidates.{descend, to_named};
ghost use Rattle.annotation_model.specs.Ports.{is_any, nets_named};
ghost use Rattle.annotation_places.specs.Places.{ArePlaces, lookups_of, role_seen};
ghost use Rattle.annotation_scopes.specs.Walks.{names_seen};
ghost use Rattle.annotation_finder.specs.Checks.{check_candidates};
ghost use Rattle.annotation_finder.specs.Fitting as fitting;
ghost use Rattle.annotation_finder.specs.Sought.{named_seen, sought_seen};

use crate::ports::NamedPort;
use crate::sought::Sought;
use annotation_places::{Places, Role};
use annotation_scopes::descend;
use sg_text::NoMemory;
use std::alloc::Global;

// What leads to a port of a scope.
fn add_leading_to(
    alloc: Global,
    places: &Places<'_>,
    scope: u32,
    role: Role,
    port: &NamedPort,
    found: &mut Vec<u32>,
) -> Result<(), NoMemory>
    requires places { ArePlaces places.now }
    requires scope { scope < length places.now.parts.now.scopes.items }
    ensures items { OnOk result (found.new.items ≡ found.old.items ++ flat_map (lookups_of places.now).leading (nets_named (role_seen role) (scope_at (circuit_seen places.now.parts.now) scope).variables port.now.name.items port.now.bit)) }
    ensures within { OnOk result (All (λ k. k < length places.now.spots.items) found.old.items → All (λ k. k < length places.now.spots.items) found.new.items) }
{
    let mut nets = Vec::new(alloc);
    places.add_nets(scope, role, &port.name, port.bit, &mut nets)?;
    for net in &nets {
        places.add_leading(*net, found)?;
    }
    Ok(())
}

// What leads to a port of each of some scopes.
fn leading_to(
    alloc: Global,
    places: &Places<'_>,
    scopes: &[u32],
    role: Role,
    port: &NamedPort,
) -> Result<Vec<u32>, NoMemory>
    requires places { ArePlaces places.now }
    requires scopes { All (λ s. s < length places.now.parts.now.scopes.items) scopes.now }
    ensures items { IfOk result (λ found. found.items ≡ flat_map (λ s. flat_map (lookups_of places.now).leading (nets_named (role_seen role) (scope_at (circuit_seen places.now.parts.now) s).variables port.now.name.items port.now.bit)) scopes.now) }
    ensures within { IfOk result (λ found. All (λ k. k < length places.now.spots.items) found.items) }
{
    let mut found = Vec::new(alloc);
    for scope in scopes {
        add_leading_to(alloc, places, *scope, role, port, &mut found)?;
    }
    Ok(found)
}

// What leads to an output port of scopes themselves.
fn leading_to_own(
    alloc: Global,
    places: &Places<'_>,
    scopes: &[u32],
    port: &NamedPort,
) -> Result<Vec<u32>, NoMemory>
    requires places { ArePlaces places.now }
    requires scopes { All (λ s. s < length places.now.parts.now.scopes.items) scopes.now }
    ensures items { IfOk result (λ found. found.items ≡ fitting.leading_to (circuit_seen places.now.parts.now) (lookups_of places.now) (named_seen port.now) scopes.now) }
    ensures within { IfOk result (λ found. All (λ k. k < length places.now.spots.items) found.items) }
{
    if !port.path.is_empty() {
        return Ok(Vec::new(alloc));
    }
    leading_to(alloc, places, scopes, Role::Output, port)
}

// The scopes to which names lead from each of some.
fn scopes_below(
    alloc: Global,
    places: &Places<'_>,
    scopes: &[u32],
    names: &[Vec<u8>],
) -> Result<Vec<u32>, NoMemory>
    requires places { ArePlaces places.now }
    requires scopes { All (λ s. s < length places.now.parts.now.scopes.items) scopes.now }
    ensures items { IfOk result (λ below. below.items ≡ flat_map (descend (lookups_of places.now).inside (names_seen names.now)) scopes.now) }
    ensures within { IfOk result (λ below. All (λ s. s < length places.now.parts.now.scopes.items) below.items) }
{
    let mut below = Vec::new(alloc);
    for scope in scopes {
        below.append(&mut descend(alloc, places, names, *scope)?)?;
    }
    Ok(below)
}

// What leads to an input port that is named below scopes.
fn leading_below(
    alloc: Global,
    places: &Places<'_>,
    scopes: &[u32],
    port: &NamedPort,
) -> Result<Vec<u32>, NoMemory>
    requires places { ArePlaces places.now }
    requires scopes { All (λ s. s < length places.now.parts.now.scopes.items) scopes.now }
    ensures items { IfOk result (λ found. found.items ≡ to_named (circuit_seen places.now.parts.now) (lookups_of places.now) (named_seen port.now).names port.now.bit scopes.now) }
    ensures within { IfOk result (λ found. All (λ k. k < length places.now.spots.items) found.items) }
{
    let below = scopes_below(alloc, places, scopes, &port.path)?;
    leading_to(alloc, places, &below, Role::Input, port)
}

// The legs and paths of scopes.
fn standing_in(alloc: Global, places: &Places<'_>, scopes: &[u32]) -> Result<Vec<u32>, NoMemory>
    requires places { ArePlaces places.now }
    ensures items { IfOk result (λ found. found.items ≡ flat_map (lookups_of places.now).standing scopes.now) }
    ensures within { IfOk result (λ found. All (λ k. k < length places.now.spots.items) found.items) }
{
    let mut found = Vec::new(alloc);
    for scope in scopes {
        found.extend_from_slice(places.standing(*scope))?;
    }
    Ok(found)
}

/// The legs and paths that may be what is asked for in scopes, some of them more than once.
pub fn spot_candidates(
    alloc: Global,
    places: &Places<'_>,
    scopes: &[u32],
    sought: &Sought,
) -> Result<Vec<u32>, NoMemory>
    requires places { ArePlaces places.now }
    requires scopes { All (λ s. s < length places.now.parts.now.scopes.items) scopes.now }
    ensures items { IfOk result (λ found. found.items ≡ fitting.candidates (circuit_seen places.now.parts.now) (lookups_of places.now) (sought_seen sought.now) scopes.now) }
    ensures within { IfOk result (λ found. All (λ k. k < length places.now.spots.items) found.items) }
{
    match sought {
        Sought::Between { to, .. } => leading_to_own(alloc, places, scopes, to),
        Sought::ToOutput(to) => leading_to_own(alloc, places, scopes, to),
        Sought::AllPaths => standing_in(alloc, places, scopes),
        Sought::ToInput(to) => leading_below(alloc, places, scopes, to),
        Sought::Connecting { to, .. } => leading_below(alloc, places, scopes, to),
        Sought::Nothing => Ok(Vec::new(alloc)),
    }
}

// The timing checks whose reference is a net of a port of a scope.
fn add_referring_to(
    alloc: Global,
    places: &Places<'_>,
    scope: u32,
    port: &NamedPort,
    found: &mut Vec<u32>,
) -> Result<(), NoMemory>
    requires places { ArePlaces places.now }
    requires scope { scope < length places.now.parts.now.scopes.items }
    ensures items { OnOk result (found.new.items ≡ found.old.items ++ flat_map (lookups_of places.now).referring (nets_named is_any (scope_at (circuit_seen places.now.parts.now) scope).variables port.now.name.items port.now.bit)) }
    ensures within { OnOk result (All (λ k. k < length places.now.parts.now.checks.items) found.old.items → All (λ k. k < length places.now.parts.now.checks.items) found.new.items) }
{
    let mut nets = Vec::new(alloc);
    places.add_nets(scope, Role::Any, &port.name, port.bit, &mut nets)?;
    for net in &nets {
        found.extend_from_slice(places.referring(*net))?;
    }
    Ok(())
}

/// The timing checks of scopes whose reference is a net of a port, some of them perhaps more than once.
pub fn check_candidates(
    alloc: Global,
    places: &Places<'_>,
    scopes: &[u32],
    port: &NamedPort,
) -> Result<Vec<u32>, NoMemory>
    requires places { ArePlaces places.now }
    requires scopes { All (λ s. s < length places.now.parts.now.scopes.items) scopes.now }
    ensures items { IfOk result (λ found. found.items ≡ check_candidates (circuit_seen places.now.parts.now) (lookups_of places.now) (named_seen port.now) scopes.now) }
    ensures within { IfOk result (λ found. All (λ k. k < length places.now.parts.now.checks.items) found.items) }
{
    let mut found = Vec::new(alloc);
    if !port.path.is_empty() {
        return Ok(found);
    }
    for scope in scopes {
        add_referring_to(alloc, places, *scope, port, &mut found)?;
    }
    Ok(found)
}
