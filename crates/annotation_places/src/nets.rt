// The nets of ports.
ghost use Rattle.std.specs.Prelude.{◌≡◌, ◌<◌, ◌++◌, All, OnOk, length};
ghost use Rattle.std.specs.List.{flat_map};
ghost use Rattle.sg_circuit.specs.Circuit.{scope_at};
ghost use Rattle.sg_circuit.specs.Seen.{circuit_seen, variable_seen};
ghost use Rattle.annotation_model.specs.Ports.{has, nets_named};
ghost use Rattle.annotation_places.specs.Places.{ArePlaces, role_seen};
ghost use Rattle.annotation_places.specs.Nets.{meant_of, meant_at};

use crate::bits::bits_of;
use crate::places::Places;
use sg_circuit::{NetId, Port, Variable};
use sg_text::NoMemory;

/// Which variables of a scope are meant by a port's name.
#[derive(Clone, Copy, Debug, PartialEq, Eq)]
pub enum Role {
    Input,
    Output,
    /// Inner nets too.
    Any,
}

fn is_meant(role: Role, port: Port) -> bool
    ensures { result ≡ role_seen role port }
{
    match role {
        Role::Input => port == Port::Input,
        Role::Output => port == Port::Output,
        Role::Any => true,
    }
}

// The nets of a variable, or that of a bit, where it's a port that is meant.
fn meant_of(variable: &Variable, role: Role, bit: Option<i64>) -> &[NetId]
    ensures { result.now ≡ meant_of (role_seen role) bit (variable_seen variable.now) }
{
    if !is_meant(role, variable.port) {
        return &[];
    }
    bits_of(variable, bit)
}

fn is_among(net: u32, nets: &[u32]) -> bool
    ensures { result ≡ has net nets.now }
{
    nets.contains(&net)
}

// Adds those of the variables at some places.
fn add_meant(
    variables: &[Variable],
    places: &[u32],
    role: Role,
    bit: Option<i64>,
    nets: &mut Vec<u32>,
) -> Result<(), NoMemory>
    requires { All (λ place. place < length variables.now) places.now }
    ensures { OnOk result (nets.new.items ≡ nets.old.items ++ flat_map (meant_at (role_seen role) bit variables.now) places.now) }
{
    for place in places {
        nets.extend_from_slice(meant_of(&variables[*place as usize], role, bit))?;
    }
    Ok(())
}

// Whether a net is one of them.
fn has_meant(variables: &[Variable], places: &[u32], role: Role, bit: Option<i64>, net: u32) -> bool
    requires { All (λ place. place < length variables.now) places.now }
    ensures { result ≡ has net (flat_map (meant_at (role_seen role) bit variables.now) places.now) }
{
    for place in places {
        if is_among(net, meant_of(&variables[*place as usize], role, bit)) {
            return true;
        }
    }
    false
}

impl Places<'_> {
    /// Adds the nets that a name, and perhaps the index of a bit, means in a scope (IEEE 1497-2001, port instances).
    pub fn add_nets(
        &self,
        scope: u32,
        role: Role,
        name: &[u8],
        bit: Option<i64>,
        nets: &mut Vec<u32>,
    ) -> Result<(), NoMemory>
        requires places { ArePlaces self.now }
        requires scope { scope < length self.now.parts.now.scopes.items }
        ensures { OnOk result (nets.new.items ≡ nets.old.items ++ nets_named (role_seen role) (scope_at (circuit_seen self.now.parts.now) scope).variables name.now bit) }
    {
        let variables = &self.parts.scopes[scope as usize].variables;
        add_meant(
            variables,
            self.variables_named(scope, name),
            role,
            bit,
            nets,
        )
    }

    /// Whether a net is one of these.
    pub fn has_net(&self, scope: u32, role: Role, name: &[u8], bit: Option<i64>, net: u32) -> bool
        requires places { ArePlaces self.now }
        requires scope { scope < length self.now.parts.now.scopes.items }
        ensures { result ≡ has net (nets_named (role_seen role) (scope_at (circuit_seen self.now.parts.now) scope).variables name.now bit) }
    {
        let variables = &self.parts.scopes[scope as usize].variables;
        has_meant(variables, self.variables_named(scope, name), role, bit, net)
    }
}
