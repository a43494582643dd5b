// Specparams with values.
ghost use Rattle.std.specs.Prelude.{◌≡◌, [], OnOk, IfOk, IfErr, map};
ghost use Rattle.std.specs.Option.{option_map};
ghost use Rattle.vl_tree.specs.Seen.{view_mtm, view_name};
ghost use Rattle.elab_model.specs.Faults.{RefusesOneOf};
ghost use Rattle.specify_model.specs.Faults.{parameter_faults};
ghost use Rattle.specify_model.specs.Values.{value_of};
ghost use Rattle.specify_values.specs.Seen.{view_parameter, named_in, one_more, values_of};

use crate::items::Parameter;
use elab_model::ElabKind;
use elab_names::check_once;
use indexmap::IndexMap;
use sg_text::{NoMemory, Refused};
use std::alloc::Global;
use vl_tree::{MinTypMax, Name};

/// The values of a module's specparams, found by their names.
#[derive(Debug, Drop)]
pub struct Parameters<'a> {
    values: IndexMap<&'a [u8], MinTypMax>,
}

impl<'a> Parameters<'a> {
    /// The value of the specparam of a name, if there is one.
    pub fn value(&self, name: &[u8]) -> Option<MinTypMax>
        ensures { option_map view_mtm result ≡ values_of self.now name.now }
    {
        match self.values.get(name) {
            Some(value) => Some(*value),
            None => None,
        }
    }
}

/// Specparams with values, by their names. Refuses a second one of a name (DuplicateName, at the name). Takes memory in proportion to the list.
pub fn specparams<'a>(
    alloc: Global,
    list: &[Parameter<'a>],
) -> Result<Parameters<'a>, Refused<ElabKind>>
    ensures values { IfOk result (λ p. values_of p ≡ value_of (map view_parameter list.now)) }
    ensures faultless { OnOk result (parameter_faults (map view_parameter list.now) ≡ []) }
    ensures refused { IfErr result (RefusesOneOf (parameter_faults (map view_parameter list.now))) }
{
    let names = names_of(alloc, list)?;
    check_once(alloc, &names)?;
    Ok(specparam_values(alloc, list)?)
}

fn names_of<'a>(alloc: Global, list: &[Parameter<'a>]) -> Result<Vec<Name<'a>>, NoMemory>
    ensures { IfOk result (λ names. map view_name names.items ≡ map (λ p. p.name) (map view_parameter list.now)) }
{
    let mut names = Vec::new(alloc);
    for parameter in list {
        names.push(parameter.name)?;
    }
    Ok(names)
}

/// Specparams with values, by their names, of which the first of a name holds. Takes memory in proportion to the list.
pub fn specparam_values<'a>(
    alloc: Global,
    list: &[Parameter<'a>],
) -> Result<Parameters<'a>, NoMemory>
    ensures { IfOk result (λ p. values_of p ≡ value_of (map view_parameter list.now)) }
{
    let mut values: IndexMap<&[u8], MinTypMax> = IndexMap::new(alloc);
    for parameter in list {
        add_value(*parameter, &mut values)?;
    }
    Ok(Parameters { values })
}

fn add_value<'a>(
    parameter: Parameter<'a>,
    values: &mut IndexMap<&'a [u8], MinTypMax>,
) -> Result<(), NoMemory>
    ensures { OnOk result (named_in values.new ≡ one_more (named_in values.old) (view_parameter parameter.entry)) }
{
    let name = parameter.name.text;
    if !values.contains_key(name) {
        values.insert(name, parameter.value)?;
    }
    Ok(())
}
