// Legs, by the ports that they lead to and from.
ghost use Rattle.std.specs.Prelude.{◌≡◌, ◌<◌, ◌==◌, ◌&&◌, IfSome, length};
ghost use Rattle.std.specs.List.{list_any};
ghost use Rattle.sg_circuit.specs.Circuit.{scope_at};
ghost use Rattle.sg_circuit.specs.Seen.{circuit_seen};
ghost use Rattle.annotation_index.specs.Candidates.{descend, is_source_down};
ghost use Rattle.annotation_index.specs.Candidates as index;
ghost use Rattle.annotation_model.specs.Ports.{has, is_input, is_output, nets_named};
ghost use Rattle.annotation_places.specs.Places.{ArePlaces, lookups_of};
ghost use Rattle.annotation_scopes.specs.Walks.{names_seen};
ghost use Rattle.annotation_finder.specs.Fitting as fitting;
ghost use Rattle.annotation_finder.specs.Sought.{named_seen};

use crate::ports::NamedPort;
use annotation_places::{Places, Role};
use annotation_scopes::climb;

/// The scope below which an input port is named, where a net is one of its nets in a scope.
pub fn named_below(places: &Places<'_>, port: &NamedPort, scope: u32, net: u32) -> Option<u32>
    requires places { ArePlaces places.now }
    requires scope { scope < length places.now.parts.now.scopes.items }
    ensures found { result ≡ fitting.below (circuit_seen places.now.parts.now) scope (named_seen port.now) net }
    ensures within { IfSome result (λ s. s < length places.now.parts.now.scopes.items) }
{
    if !places.has_net(scope, Role::Input, &port.name, port.bit, net) {
        return None;
    }
    climb(places, &port.path, scope)
}

// Whether a net is one of the nets of an output of a leaf.
fn is_of_leaf(places: &Places<'_>, name: &[u8], bit: Option<i64>, net: u32, scope: u32) -> bool
    requires places { ArePlaces places.now }
    requires scope { scope < length places.now.parts.now.scopes.items }
    ensures { result ≡ ((scope_at (circuit_seen places.now.parts.now) scope).is_leaf && has net (nets_named is_output (scope_at (circuit_seen places.now.parts.now) scope).variables name.now bit)) }
{
    if !places.parts.scopes[scope as usize].leaf {
        return false;
    }
    places.has_net(scope, Role::Output, name, bit, net)
}

// Whether it is one of those of an input of the top.
fn is_of_top(places: &Places<'_>, name: &[u8], bit: Option<i64>, net: u32, scope: u32) -> bool
    requires places { ArePlaces places.now }
    requires scope { scope < length places.now.parts.now.scopes.items }
    ensures { result ≡ ((scope == 0) && has net (nets_named is_input (scope_at (circuit_seen places.now.parts.now) scope).variables name.now bit)) }
{
    scope == 0 && places.has_net(scope, Role::Input, name, bit, net)
}

// Whether it may be a source that is named so in a scope.
fn is_source_at(places: &Places<'_>, name: &[u8], bit: Option<i64>, net: u32, scope: u32) -> bool
    requires places { ArePlaces places.now }
    requires scope { scope < length places.now.parts.now.scopes.items }
    ensures { result ≡ index.is_source_at (circuit_seen places.now.parts.now) name.now bit net scope }
{
    is_of_leaf(places, name, bit, net, scope) || is_of_top(places, name, bit, net, scope)
}

// Whether it is one in a scope to which names lead from another.
fn is_source_inside(
    places: &Places<'_>,
    path: &[Vec<u8>],
    name: &[u8],
    bit: Option<i64>,
    net: u32,
    scope: u32,
) -> bool
    requires places { ArePlaces places.now }
    requires scope { scope < length places.now.parts.now.scopes.items }
    ensures { result ≡ list_any (index.is_source_at (circuit_seen places.now.parts.now) name.now bit net) (descend (lookups_of places.now).inside (names_seen path.now) scope) }
{
    let [first, rest @ ..] = path else {
        return is_source_at(places, name, bit, net, scope);
    };
    for inner in places.inside(scope, first) {
        if is_source_inside(places, rest, name, bit, net, *inner) {
            return true;
        }
    }
    false
}

/// Whether a net is one of a port's nets where it may be a source, and the port is named below a scope.
pub fn is_source_below(places: &Places<'_>, port: &NamedPort, net: u32, scope: u32) -> bool
    requires places { ArePlaces places.now }
    requires scope { scope < length places.now.parts.now.scopes.items }
    ensures { result ≡ is_source_down (circuit_seen places.now.parts.now) (lookups_of places.now) (named_seen port.now).names port.now.bit net scope }
{
    is_source_inside(places, &port.path, &port.name, port.bit, net, scope)
}
