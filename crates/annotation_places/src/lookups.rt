// What indexes give for scopes, names and nets.
ghost use Rattle.std.specs.Prelude.{◌≡◌, ◌<◌, All, length};
ghost use Rattle.sg_circuit.specs.Seen.{circuit_seen};
ghost use Rattle.annotation_places.specs.Places.{ArePlaces, lookups_of, variables_of};

use crate::places::Places;

impl Places<'_> {
    /// The instances of a name in a scope.
    pub fn inside(&self, scope: u32, name: &[u8]) -> &[u32]
        requires places { ArePlaces self.now }
        ensures items { result.now ≡ (lookups_of self.now).inside scope name.now }
        ensures within { All (λ s. s < length self.now.parts.now.scopes.items) result.now }
    {
        self.inside.get(scope, name)
    }

    /// The scopes that are instances of a module.
    pub fn of_module(&self, name: &[u8]) -> &[u32]
        requires places { ArePlaces self.now }
        ensures items { result.now ≡ (lookups_of self.now).of_module name.now }
        ensures within { All (λ s. s < length self.now.parts.now.scopes.items) result.now }
    {
        self.modules.get(0, name)
    }

    /// The legs and paths of a scope, by number.
    pub fn standing(&self, scope: u32) -> &[u32]
        requires places { ArePlaces self.now }
        ensures items { result.now ≡ (lookups_of self.now).standing scope }
        ensures within { All (λ k. k < length self.now.spots.items) result.now }
    {
        self.standing.get(scope, &[])
    }

    /// The timing checks whose reference is a net, by number.
    pub fn referring(&self, net: u32) -> &[u32]
        requires places { ArePlaces self.now }
        ensures items { result.now ≡ (lookups_of self.now).referring net }
        ensures within { All (λ k. k < length self.now.parts.now.checks.items) result.now }
    {
        self.referring.get(net, &[])
    }

    /// The places of the variables of a name among those of a scope.
    pub(crate) fn variables_named(&self, scope: u32, name: &[u8]) -> &[u32]
        requires places { ArePlaces self.now }
        requires scope { scope < length self.now.parts.now.scopes.items }
        ensures { result.now ≡ variables_of (circuit_seen self.now.parts.now) scope name.now }
    {
        self.variables.get(scope, name)
    }
}
