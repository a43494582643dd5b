// The names of a module's ports, looked up at all places of a text at once.
ghost use Rattle.std.specs.Prelude.{◌≡◌, IfOk, List, OnOk, length};
ghost use Rattle.elab_model.specs.Names.{Variable};
ghost use Rattle.specify_model.specs.PulseLimits as limits;
ghost use Rattle.specify_values.specs.PortNames.{AddsIf, AreMarks, AreNames, AreTrees};

use elab_variables::Table;
use name_trie::{Trie, Way};
use sg_circuit::Port;
use sg_text::NoMemory;
use std::alloc::Global;

/// The names of a module's inputs and outputs, each from its first byte on and from its last byte back. So it takes time in proportion to a text to tell of all its fronts, and
/// of all its ends, whether they are such names.
#[derive(Drop)]
pub struct PortNames {
    forwards: Trie,
    backwards: Trie,
}

/// The names of a module's ports. Takes memory in proportion to them.
pub fn names_of_ports(alloc: Global, table: &Table) -> Result<PortNames, NoMemory>
    ensures { IfOk result (AreNames (limits.is_port table.now)) }
{
    let forwards = Trie::new(alloc)?;
    let backwards = Trie::new(alloc)?;
    let mut names = PortNames {
        forwards,
        backwards,
    };
    for place in 0..table.len() {
        add_port(table, table.name(place), &mut names)?;
    }
    Ok(names)
}

// The name of a variable, where it is a port.
fn add_port(table: &Table, name: &[u8], names: &mut PortNames) -> Result<(), NoMemory>
    requires { AreTrees names.old }
    ensures { OnOk result (AddsIf (limits.is_port table.now name.now) name.now names.old names.new) }
{
    if !is_port(table, name) {
        return Ok(());
    }
    names.forwards.add(Way::Forwards, name)?;
    names.backwards.add(Way::Backwards, name)?;
    Ok(())
}

fn is_port(table: &Table, name: &[u8]) -> bool
    ensures { result ≡ limits.is_port table.now name.now }
{
    match table.find(name) {
        Some(place) => is_outside(table.row(place).port),
        None => false,
    }
}

fn is_outside(port: Port) -> bool
    ensures { result ≡ limits.is_outside port }
{
    matches!(port, Port::Input | Port::Output)
}

/// Before and behind which bytes of a text the names of ports stand. What stands behind them is told from the last byte back.
#[derive(Drop)]
pub struct Marks {
    pub before: Vec<bool>,
    pub behind: Vec<bool>,
}

/// The marks of a text.
pub fn marks_of(alloc: Global, names: &PortNames, text: &[u8]) -> Result<Marks, NoMemory>
    ensures before { IfOk result (λ m. length m.before.items ≡ length text.now) }
    ensures behind { IfOk result (λ m. length m.behind.items ≡ length text.now) }
    ensures marks { IfOk result (λ m. (vs : List Variable) → AreNames (limits.is_port vs) names.now → AreMarks vs text.now m.before.items m.behind.items) }
{
    let before = names.forwards.fronts(alloc, Way::Forwards, text)?;
    let behind = names.backwards.fronts(alloc, Way::Backwards, text)?;
    Ok(Marks { before, behind })
}
