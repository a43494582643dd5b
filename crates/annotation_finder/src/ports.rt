// Ports that entries name.
ghost use Rattle.std.specs.Prelude.{◌≡◌, ◌<◌, IfOk, length};
ghost use Rattle.sdf_tree.specs.Seen.{view_port};
ghost use Rattle.sg_circuit.specs.Seen.{circuit_seen};
ghost use Rattle.annotation_model.specs.Ports.{has, own_nets};
ghost use Rattle.annotation_places.specs.Places.{ArePlaces, role_seen};
ghost use Rattle.annotation_finder.specs.Sought.{named, named_seen};

use annotation_places::{Places, Role};
use annotation_scopes::called_names;
use sdf_tree::{Divider, Port};
use sg_text::NoMemory;
use std::alloc::Global;

/// A port, or another net: the names that lead to the scope that has it, its own, and perhaps the index of a bit. Names are as they are
/// called.
#[derive(Debug, Drop)]
pub struct NamedPort {
    pub path: Vec<Vec<u8>>,
    pub name: Vec<u8>,
    pub bit: Option<i64>,
}

impl NamedPort {
    /// What an entry names. Takes memory.
    pub fn of(alloc: Global, divider: Divider, port: &Port<'_>) -> Result<NamedPort, NoMemory>
        ensures { IfOk result (λ named_port. named_seen named_port ≡ named divider (view_port port.now)) }
    {
        let mut path = called_names(alloc, divider, port.path)?;
        let Some(name) = path.pop() else {
            unreachable!();
        };
        Ok(NamedPort {
            path,
            name,
            bit: port.bit,
        })
    }

    /// Whether it is a scope's own, and a net is one of its nets.
    pub fn is_own(&self, places: &Places<'_>, scope: u32, role: Role, net: u32) -> bool
        requires places { ArePlaces places.now }
        requires scope { scope < length places.now.parts.now.scopes.items }
        ensures { result ≡ has net (own_nets (circuit_seen places.now.parts.now) (role_seen role) scope (named_seen self.now).names self.now.bit) }
    {
        if !self.path.is_empty() {
            return false;
        }
        places.has_net(scope, role, &self.name, self.bit, net)
    }
}
