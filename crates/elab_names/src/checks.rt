// What is refused in the names that a module declares.
ghost use Rattle.std.specs.Prelude.{◌≡◌, [], OnOk, IfOk, IfErr, map};
ghost use Rattle.vl_tree.specs.Seen.{view_name, view_module, view_port_declaration};
ghost use Rattle.elab_model.specs.Faults.{RefusesOneOf, duplicates, missing};
ghost use Rattle.elab_model.specs.NameFaults as def;
ghost use Rattle.elab_declared.specs.Words.{view_net};

use crate::{first_missing, first_repeated, instance_names};
use elab_declared::{NetDeclaration, net_declarations, port_declarations, port_list};
use elab_model::ElabKind;
use sg_text::{NoMemory, Refused};
use std::alloc::Global;
use vl_tree::{Module, Name, PortDeclaration};

/// Refuses a module in which two ports, two directions of a port, two nets or two instances have one name (DuplicateName), a
/// direction is declared of what is no port (UnknownName), or a port has no direction (BadTerminal). The place is that of the
/// name; of two that are one it is the second. Takes memory in proportion to the names.
pub fn check_names(alloc: Global, definition: &Module) -> Result<(), Refused<ElabKind>>
    ensures faultless { OnOk result (def.name_faults (view_module definition.now) ≡ []) }
    ensures refused { IfErr result (RefusesOneOf (def.name_faults (view_module definition.now))) }
{
    let list = port_list(alloc, definition)?;
    let ports = declared_ports(alloc, definition)?;
    let nets = declared_nets(alloc, definition)?;
    let instances = instance_names(alloc, definition)?;
    check_once(alloc, &list)?;
    check_once(alloc, &ports)?;
    check_once(alloc, &nets)?;
    check_once(alloc, &instances)?;
    check_among(alloc, ElabKind::UnknownName, &ports, &list)?;
    check_among(alloc, ElabKind::BadTerminal, &list, &ports)?;
    Ok(())
}

/// Refuses a name that stands earlier in the list too (DuplicateName, at the name). Takes memory in proportion to the names.
pub fn check_once(alloc: Global, names: &[Name]) -> Result<(), Refused<ElabKind>>
    ensures faultless { OnOk result (duplicates (map view_name names.now) ≡ []) }
    ensures refused { IfErr result (RefusesOneOf (duplicates (map view_name names.now))) }
{
    match first_repeated(alloc, names)? {
        Some(place) => Err(Refused::Fault {
            kind: ElabKind::DuplicateName,
            place,
        }),
        None => Ok(()),
    }
}

/// Refuses a name that is none of the others, as a fault of this kind at the name. Takes memory in proportion to the others.
pub fn check_among(
    alloc: Global,
    kind: ElabKind,
    names: &[Name],
    others: &[Name],
) -> Result<(), Refused<ElabKind>>
    ensures faultless { OnOk result (missing kind (map view_name names.now) (map view_name others.now) ≡ []) }
    ensures refused { IfErr result (RefusesOneOf (missing kind (map view_name names.now) (map view_name others.now))) }
{
    match first_missing(alloc, names, others)? {
        Some(name) => Err(Refused::Fault {
            kind,
            place: name.place,
        }),
        None => Ok(()),
    }
}

fn declared_ports<'a>(alloc: Global, definition: &Module<'a>) -> Result<Vec<Name<'a>>, NoMemory>
    ensures { IfOk result (λ names. map view_name names.items ≡ def.declared_ports (view_module definition.now)) }
{
    let ports = port_declarations(alloc, definition)?;
    names_of_ports(alloc, &ports)
}

fn names_of_ports<'a>(
    alloc: Global,
    ports: &[PortDeclaration<'a>],
) -> Result<Vec<Name<'a>>, NoMemory>
    ensures { IfOk result (λ names. map view_name names.items ≡ map (λ d. d.name) (map view_port_declaration ports.now)) }
{
    let mut names = Vec::new(alloc);
    for port in ports {
        names.push(port.name)?;
    }
    Ok(names)
}

fn declared_nets<'a>(alloc: Global, definition: &Module<'a>) -> Result<Vec<Name<'a>>, NoMemory>
    ensures { IfOk result (λ names. map view_name names.items ≡ def.declared_nets (view_module definition.now)) }
{
    let nets = net_declarations(alloc, definition)?;
    names_of_nets(alloc, &nets)
}

fn names_of_nets<'a>(alloc: Global, nets: &[NetDeclaration<'a>]) -> Result<Vec<Name<'a>>, NoMemory>
    ensures { IfOk result (λ names. map view_name names.items ≡ map (λ d. d.name) (map view_net nets.now)) }
{
    let mut names = Vec::new(alloc);
    for net in nets {
        names.push(net.name)?;
    }
    Ok(names)
}
