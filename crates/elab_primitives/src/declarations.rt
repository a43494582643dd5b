// What is refused in the declarations of a primitive.
ghost use Rattle.std.specs.Prelude.{◌≡◌, [], OnOk, IfOk, IfErr, map, find, take, drop, option_map};
ghost use Rattle.vl_tree.specs.Seen.{view_name, view_initial, view_primitive};
ghost use Rattle.vl_tree.specs.Tree.{Primitive as Tree};
ghost use Rattle.elab_model.specs.Faults.{RefusesOneOf};
ghost use Rattle.elab_model.specs.Primitives as def;
ghost use Rattle.elab_model.specs.PrimitiveFaults as faults;
ghost use Rattle.elab_primitives.specs.Declarations.{IsDeclared, is_one_of};

use crate::declared::Declared;
use crate::names::declared_names;
use elab_model::ElabKind;
use elab_names::{check_among, check_once};
use sg_text::Refused;
use std::alloc::Global;
use vl_tree::{Initial, Name, Primitive};

/// Whether a primitive is sequential, if its declarations have no fault. Takes memory in proportion to its names.
pub fn check_declarations(alloc: Global, primitive: &Primitive) -> Result<bool, Refused<ElabKind>>
    ensures sequential { IfOk result (λ sequential. sequential ≡ def.is_sequential (view_primitive primitive.now)) }
    ensures faultless { OnOk result (faults.primitive_faults (view_primitive primitive.now) ≡ []) }
    ensures refused { IfErr result (RefusesOneOf (faults.primitive_faults (view_primitive primitive.now))) }
{
    let declared = declared_names(alloc, primitive)?;
    let sequential = !declared.regs().is_empty();
    check_names(alloc, primitive, &declared)?;
    check_among(
        alloc,
        ElabKind::UnknownName,
        &declared.names,
        &primitive.ports,
    )?;
    check_directions(alloc, primitive, &declared)?;
    check_regs(primitive, &declared)?;
    check_state(&primitive.initial, sequential)?;
    Ok(sequential)
}

// No two ports, directions or regs have one name.
fn check_names(
    alloc: Global,
    primitive: &Primitive,
    declared: &Declared,
) -> Result<(), Refused<ElabKind>>
    requires { IsDeclared (view_primitive primitive.now) declared.now }
    ensures faultless { OnOk result (faults.named_twice (view_primitive primitive.now) ≡ []) }
    ensures refused { IfErr result (RefusesOneOf (faults.named_twice (view_primitive primitive.now))) }
{
    check_once(alloc, &primitive.ports)?;
    check_once(alloc, declared.directions())?;
    check_once(alloc, declared.regs())?;
    Ok(())
}

// The first port is an output, and each other one an input.
fn check_directions(
    alloc: Global,
    primitive: &Primitive,
    declared: &Declared,
) -> Result<(), Refused<ElabKind>>
    requires { IsDeclared (view_primitive primitive.now) declared.now }
    ensures faultless { OnOk result (faults.wrong_directions (view_primitive primitive.now) (map view_name primitive.now.ports.items) ≡ []) }
    ensures refused { IfErr result (RefusesOneOf (faults.wrong_directions (view_primitive primitive.now) (map view_name primitive.now.ports.items))) }
{
    let (first, others) = first_and_others(&primitive.ports);
    check_among(alloc, ElabKind::BadTerminal, first, declared.outputs())?;
    check_among(alloc, ElabKind::BadTerminal, others, declared.inputs())?;
    Ok(())
}

fn first_and_others<'n, 'a>(ports: &'n [Name<'a>]) -> (&'n [Name<'a>], &'n [Name<'a>])
    ensures first { result.0.now ≡ take 1 ports.now }
    ensures others { result.1.now ≡ drop 1 ports.now }
{
    ports.split_at(ports.len().min(1))
}

// No other port than the first is a reg or has an initial value.
fn check_regs(primitive: &Primitive, declared: &Declared) -> Result<(), Refused<ElabKind>>
    requires { IsDeclared (view_primitive primitive.now) declared.now }
    ensures faultless { OnOk result (faults.wrong_regs (view_primitive primitive.now) (map view_name primitive.now.ports.items) ≡ []) }
    ensures refused { IfErr result (RefusesOneOf (faults.wrong_regs (view_primitive primitive.now) (map view_name primitive.now.ports.items))) }
{
    let (_, others) = first_and_others(&primitive.ports);
    match first_among(declared.states(), others) {
        Some(name) => Err(Refused::Fault {
            kind: ElabKind::BadTerminal,
            place: name.place,
        }),
        None => Ok(()),
    }
}

// The first of these names that is one of the others. Where no name stands twice, and each is the first port or one of the others, at most two are looked for.
fn first_among<'a>(names: &[Name<'a>], others: &[Name]) -> Option<Name<'a>>
    ensures { option_map view_name result ≡ find (faults.is_in (map view_name others.now)) (map view_name names.now) }
{
    for name in names {
        if is_named(others, name.text) {
            return Some(*name);
        }
    }
    None
}

fn is_named(names: &[Name], text: &[u8]) -> bool
    ensures { result ≡ is_one_of names.now text.now }
{
    names.iter().any(|name| text == name.text)
}

// A combinational primitive has no initial value.
fn check_state(initial: &Option<Initial>, sequential: bool) -> Result<(), Refused<ElabKind>>
    ensures faultless { OnOk result ((p : Tree) → p.initial ≡ option_map view_initial initial.now → sequential ≡ def.is_sequential p → faults.no_state p ≡ []) }
    ensures refused { IfErr result (λ r. (p : Tree) → p.initial ≡ option_map view_initial initial.now → sequential ≡ def.is_sequential p → RefusesOneOf (faults.no_state p) r) }
{
    match initial {
        Some(initial) if !sequential => Err(Refused::Fault {
            kind: ElabKind::BadTerminal,
            place: initial.name.place,
        }),
        _ => Ok(()),
    }
}
