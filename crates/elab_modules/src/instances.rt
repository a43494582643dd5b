// What is refused in instances of modules and primitives.
ghost use Rattle.std.specs.Prelude.{◌≡◌, ◌<◌, Some, length, slice_get, option_map};
ghost use Rattle.vl_tree.specs.Seen.{view_delay, view_instance, view_name};
ghost use Rattle.vl_tree.specs.Tree.{Module};
ghost use Rattle.elab_model.specs.Members as member;
ghost use Rattle.elab_model.specs.Names.{variables};
ghost use Rattle.elab_modules.specs.Connecting as told;
ghost use Rattle.elab_modules.specs.Connecting.{instance_of_module_faults};
ghost use Rattle.elab_modules.specs.Ready.{AreReady, IsPrepared, NamesReady};
ghost use Rattle.elab_modules.specs.Telling.{Tells, TellsButDelay};
ghost use Rattle.elab_modules.specs.declared.prepared.Prepared as ghost_prepared;

use crate::connections::check_module_instance;
use crate::primitive_instances::check_primitive_instance;
use crate::{Prepared, Ready};
use elab_bits::Bit;
use elab_hierarchy::Definitions;
use elab_model::ElabKind;
use elab_variables::Table;
use sg_text::Refused;
use vl_tree::{Delay, Instance, Name, Part};

fn as_prepared<'s, 't, 'a>(ready: &'s Ready<'t, 'a>) -> Option<&'s Prepared<'t, 'a>>
    ensures { option_map (λ p. p.now) result ≡ told.as_prepared ready.now }
{
    match ready {
        Ready::Module(prepared) => Some(prepared),
        Ready::Primitive(_) => None,
    }
}

// The module that stands ready at a place, if one does.
fn prepared_in<'s, 't, 'a>(part: &'s Option<Ready<'t, 'a>>) -> Option<&'s Prepared<'t, 'a>>
    ensures { option_map (λ p. p.now) result ≡ told.prepared_in part.now }
{
    match part {
        Some(ready) => as_prepared(ready),
        None => None,
    }
}

fn part_at<'s, 't, 'a>(
    parts: &'s [Option<Ready<'t, 'a>>],
    place: usize,
) -> &'s Option<Ready<'t, 'a>>
    requires { place < length parts.now }
    ensures { slice_get parts.now place ≡ Some result.now }
{
    &parts[place]
}

fn check_module(
    table: &Table,
    part: &Option<Ready>,
    delay: &Option<Delay>,
    instance: &Instance,
    bits: &mut Vec<Bit>,
) -> Result<(), Refused<ElabKind>>
    ensures { (p : ghost_prepared.Prepared) (m : Module) → told.prepared_in part.now ≡ Some p → IsPrepared p m
        → Tells (instance_of_module_faults table.now m (option_map view_delay delay.now) (view_instance instance.now)) result }
{
    let Some(child) = prepared_in(part) else {
        return Err(Refused::Fault {
            kind: ElabKind::UnknownModule,
            place: instance.place,
        });
    };
    check_module_instance(table, child, delay, instance, bits)
}

/// Refuses an instance of nothing (UnknownModule, at the instance), and what is wrong with one of a module or a primitive but the delay of a primitive's. Takes memory in
/// proportion to its connections.
pub fn check_instance(
    definitions: &Definitions,
    parts: &[Option<Ready>],
    table: &Table,
    definition: Name,
    delay: &Option<Delay>,
    instance: &Instance,
    bits: &mut Vec<Bit>,
) -> Result<(), Refused<ElabKind>>
    requires ready { AreReady definitions.now parts.now }
    requires named { NamesReady definitions.now parts.now (view_name definition) }
    ensures { (m : Module) → table.now ≡ variables m
        → TellsButDelay definitions.now m (member.instance (view_name definition.entry) (option_map view_delay delay.now) (view_instance instance.now)) result }
{
    let Some(place) = definitions.find(definition.text) else {
        return Err(Refused::Fault {
            kind: ElabKind::UnknownModule,
            place: instance.place,
        });
    };
    match definitions.part(place) {
        Part::Module(_) => check_module(table, part_at(parts, place), delay, instance, bits),
        Part::Primitive(primitive) => {
            check_primitive_instance(table, primitive.ports.len(), instance, bits)
        }
    }
}
