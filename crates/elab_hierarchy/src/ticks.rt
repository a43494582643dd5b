// What one tick is.
ghost use Rattle.std.specs.Prelude.{◌≡◌};
ghost use Rattle.vl_tree.specs.Tree.{Module};
ghost use Rattle.elab_model.specs.Delays.{lesser, tick_of};
ghost use Rattle.elab_model.specs.Hierarchy as def;
ghost use Rattle.elab_hierarchy.specs.Tops.{StandsAt};
ghost use Rattle.elab_hierarchy.specs.Placing.{ArePlaced};

use crate::{Definitions, Placed};
use sg_time::Unit;
use vl_tree::Part;

const COARSEST: Unit = Unit { power: 2 };

/// The time that one tick is: the least precision of the modules that the instances are of (IEEE 1364-2005, 19.8). `top` is the place of the top's module.
pub fn tick(definitions: &Definitions, top: usize, instances: &[Placed]) -> Unit
    ensures { (m : Module) → StandsAt definitions.now top m → ArePlaced definitions.now instances.now (def.instances definitions.now m) → result.power ≡ tick_of definitions.now m }
{
    let mut least = precision(definitions, top);
    for instance in instances {
        least = finer(least, precision(definitions, instance.definition));
    }
    least
}

fn finer(one: Unit, other: Unit) -> Unit
    ensures { result.power ≡ lesser one.power other.power }
{
    if one.power <= other.power { one } else { other }
}

// The precision of the module at a place; what is no module bounds nothing.
fn precision(definitions: &Definitions, place: usize) -> Unit
    ensures { (m : Module) → StandsAt definitions.now place m → result.power ≡ m.settings.scale.precision }
{
    if place >= definitions.len() {
        return COARSEST;
    }
    match definitions.part(place) {
        Part::Module(module) => module.mark.scale.precision,
        Part::Primitive(_) => COARSEST,
    }
}
