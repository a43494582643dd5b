// Where the ports of a module are declared.
ghost use Rattle.std.specs.Prelude.{◌≡◌, ◌<◌, ◌∷◌, [], List, IfOk, IfSome, length, map};
ghost use Rattle.sg_text.specs.declared.places.Place as ghost_place;
ghost use Rattle.vl_tree.specs.Seen.{view_port_declaration};
ghost use Rattle.vl_tree.specs.Tree.{Module};
ghost use Rattle.elab_model.specs.Names.{Variable, variables};
ghost use Rattle.elab_variables.specs.Seen.{place_named};
ghost use Rattle.elab_nets.specs.ReadyOfModules.{IsPrepared};
ghost use Rattle.elab_scopes.specs.Driven.{declared_place, place_in};

use elab_declared::port_declarations;
use elab_nets::Prepared;
use elab_variables::Table;
use sg_text::{NoMemory, Place};
use std::alloc::Global;
use vl_tree::PortDeclaration;

/// By variable, where it is first declared as a port, and else where the module's name stands. Takes memory in proportion to the module.
pub fn port_places(alloc: Global, prepared: &Prepared) -> Result<Vec<Place>, NoMemory>
    ensures same { IfOk result (λ places. length places.items ≡ length prepared.now.table) }
    ensures places { IfOk result (λ places. (m : Module) → IsPrepared prepared.now m → places.items ≡ map (declared_place m) (variables m)) }
{
    let definition = prepared.definition;
    let declarations = port_declarations(alloc, definition)?;
    let mut places = vec![in alloc; definition.name.place; prepared.table.len()]?;
    note_ports(&prepared.table, &declarations, &mut places);
    Ok(places)
}

// The first declaration of a port is noted last.
fn note_ports(table: &Table, declarations: &[PortDeclaration], places: &mut [Place])
    requires { length places.old ≡ length table.now }
    ensures { (m : Module) (f : Variable → ghost_place.Place) → table.now ≡ variables m → places.old ≡ map f (variables m)
        → places.new ≡ map (place_in (map view_port_declaration declarations.now) f) (variables m) }
{
    for i in (0..declarations.len()).rev() {
        note_port(table, &declarations[i], places);
    }
}

fn note_port(table: &Table, declaration: &PortDeclaration, places: &mut [Place])
    requires { length places.old ≡ length table.now }
    ensures { (m : Module) (f : Variable → ghost_place.Place) → table.now ≡ variables m → places.old ≡ map f (variables m)
        → places.new ≡ map (place_in (view_port_declaration declaration.now ∷ []) f) (variables m) }
{
    if let Some(variable) = place_of(table, declaration.name.text) {
        places[variable] = declaration.name.place;
    }
}

fn place_of(table: &Table, name: &[u8]) -> Option<usize>
    ensures place { result ≡ place_named table.now name.now }
    ensures within { IfSome result (λ i. i < length table.now) }
{
    table.find(name)
}
