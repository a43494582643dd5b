// What a dump's header says of the inputs.
ghost use Rattle.std.specs.Prelude.{◌≡◌, ◌∷◌, ◌++◌, ◌||◌, [], List, ℕ, MatchResult, OnOk, IfErr, map, negsuc, flat_map, not, true, option_map, option_to_list, None, if◌then◌else◌};
ghost use Rattle.vcd_form.specs.Written as written;
ghost use Rattle.vcd_form.specs.Seen.{declaration_seen, section_seen};
ghost use Rattle.vcd_model.specs.Values.{first_or, powers};
ghost use Rattle.vcd_model.specs.Faults.{fault_if};
ghost use Rattle.vcd_model.specs.Inputs.{all_declared, bare, has_scope, own};
ghost use Rattle.vcd_model.specs.declared.kinds.VcdKind.TheVariants.{NoScope};
ghost use Rattle.vcd_stim.specs.Index.{indexed, listed, nets_meant, declared_faults, own_faults, IsKnown};
ghost use Rattle.vcd_stim.specs.Paths.{is_whole_front, last_front, next_front};
ghost use Rattle.vcd_stim.specs.Meant.{RefusesOneOf};

use crate::faults::fault;
use crate::index::{add_nets, input_nets};
use crate::names::bare;
use crate::paths::{front_with, is_whole, is_within};
use indexmap::IndexMap;
use sg_circuit::NetId;
use sg_text::{NoMemory, Refused};
use std::alloc::Global;
use stim_read::Inputs;
use vcd_form::{Declaration, Section};
use vcd_model::VcdKind;

const NANOSECOND: i8 = -9;

fn power_of(section: &Section) -> Option<i8>
    ensures { option_to_list result ≡ powers (section_seen section.now) }
{
    match section {
        Section::Timescale(power) => Some(*power),
        Section::Remark => None,
        Section::Enters(_) => None,
        Section::Leaves => None,
        Section::Declares(_) => None,
    }
}

/// The power of ten of a second that the unit of times is.
pub fn unit_of(sections: &[Section]) -> i8
    ensures { result ≡ first_or (negsuc 8) (flat_map powers (map section_seen sections.now)) }
{
    for section in sections {
        if let Some(power) = power_of(section) {
            return power;
        }
    }
    NANOSECOND
}

/// What is known behind some sections: how much of the path each open scope reads, and whether its scope was found.
#[derive(Drop)]
pub struct Walk {
    pub fronts: Vec<Option<usize>>,
    pub found: bool,
}

// A scope is opened.
fn enter(scope: &[u8], name: &[u8], walk: &mut Walk) -> Result<(), NoMemory>
    ensures fronts { OnOk result (walk.new.fronts.items ≡ walk.old.fronts.items ++ next_front scope.now (last_front walk.old.fronts.items) (bare name.now) ∷ []) }
    ensures found { OnOk result (walk.new.found ≡ (walk.old.found || is_whole_front scope.now (next_front scope.now (last_front walk.old.fronts.items) (bare name.now)))) }
{
    let front = front_with(scope, &walk.fronts, bare(name));
    walk.fronts.push(front)?;
    walk.found |= is_whole(scope, front);
    Ok(())
}

// The nets of the input that a variable stands for, if it is of the scope.
fn own_nets<'c>(
    inputs: &Inputs<'c>,
    is_own: bool,
    declaration: &Declaration,
) -> Result<Option<&'c [NetId]>, Refused<VcdKind>>
    ensures { MatchResult result
        (λ nets. (option_map (λ n. n.now) nets ≡ (if is_own then nets_meant inputs.now.circuit.now (declaration_seen declaration.now) else None)) × (declared_faults inputs.now.circuit.now is_own (declaration_seen declaration.now) ≡ []))
        (RefusesOneOf (declared_faults inputs.now.circuit.now is_own (declaration_seen declaration.now))) }
{
    if !is_own {
        return Ok(None);
    }
    input_nets(inputs, declaration)
}

fn add_section<'t, 'c>(
    alloc: Global,
    inputs: &Inputs<'c>,
    scope: &[u8],
    section: &Section<'t>,
    walk: &mut Walk,
    table: &mut IndexMap<&'t [u8], Vec<&'c [NetId]>>,
) -> Result<(), Refused<VcdKind>>
    ensures { (before : List written.Section) → IsKnown inputs.now.circuit.now scope.now before walk.old.fronts.items walk.old.found (listed table.old)
        → MatchResult result (λ u. IsKnown inputs.now.circuit.now scope.now (before ++ section_seen section.now ∷ []) walk.new.fronts.items walk.new.found (listed table.new))
        (RefusesOneOf (own_faults inputs.now.circuit.now scope.now (before ++ section_seen section.now ∷ []))) }
{
    match section {
        Section::Enters(name) => enter(scope, name, walk)?,
        Section::Leaves => {
            walk.fronts.pop();
        }
        Section::Declares(declaration) => {
            let nets = own_nets(inputs, is_within(scope, &walk.fronts), declaration)?;
            add_nets(alloc, declaration.code, nets, table)?;
        }
        Section::Remark => {}
        Section::Timescale(_) => {}
    }
    Ok(())
}

/// The nets of inputs by the codes of a header, with the place of `$enddefinitions`; or a fault of the header.
pub fn table_of<'t, 'c>(
    alloc: Global,
    inputs: &Inputs<'c>,
    scope: &[u8],
    definitions: usize,
    sections: &[Section<'t>],
) -> Result<IndexMap<&'t [u8], Vec<&'c [NetId]>>, Refused<VcdKind>>
    ensures { MatchResult result
        (λ table. (own_faults inputs.now.circuit.now scope.now (map section_seen sections.now) ≡ []) × (has_scope scope.now (map section_seen sections.now) ≡ true) × ((code : List ℕ) → listed table code ≡ indexed inputs.now.circuit.now (all_declared (map section_seen sections.now)) (own scope.now (map section_seen sections.now)) code))
        (RefusesOneOf (own_faults inputs.now.circuit.now scope.now (map section_seen sections.now) ++ fault_if (not (has_scope scope.now (map section_seen sections.now))) NoScope definitions)) }
{
    let mut table: IndexMap<&[u8], Vec<&[NetId]>> = IndexMap::new(alloc);
    let mut walk = Walk {
        fronts: Vec::new(alloc),
        found: false,
    };
    for section in sections {
        add_section(alloc, inputs, scope, section, &mut walk, &mut table)?;
    }
    if !walk.found {
        return Err(fault(VcdKind::NoScope, definitions));
    }
    Ok(table)
}
