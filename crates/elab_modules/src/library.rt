// All that a top reaches, made ready.
ghost use Rattle.std.specs.Prelude.{◌≡◌, [], IfOk, IfErr};
ghost use Rattle.vl_tree.specs.Tree.{Module};
ghost use Rattle.elab_model.specs.Delays.{tick_of};
ghost use Rattle.elab_model.specs.Hierarchy as def;
ghost use Rattle.elab_hierarchy.specs.Placing.{ArePlaced, tree_faults};
ghost use Rattle.elab_modules.specs.Reached.{IsLibrary, RefusesReached};

use crate::Prepared;
use crate::checks::check_modules;
use crate::stock::reached;
use elab_hierarchy::{Definitions, Placed};
use elab_model::ElabKind;
use sg_circuit::UdpUse;
use sg_delay::{Corner, GateDelays};
use sg_text::Refused;
use sg_time::Unit;
use std::alloc::Global;

/// What stands ready of a definition.
#[derive(Drop)]
pub enum Ready<'t, 'a> {
    Module(Prepared<'t, 'a>),
    /// The place of the primitive's table.
    Primitive(u32),
}

/// What stands ready of the definitions that a top reaches.
#[derive(Drop)]
pub struct Library<'t, 'a> {
    /// By the place of the definition.
    pub parts: Vec<Option<Ready<'t, 'a>>>,
    /// The tables of the primitives, in order of first use.
    pub udps: Vec<UdpUse>,
    /// The delays that stand in the modules, in ticks.
    pub gate_delays: Vec<GateDelays>,
    /// By the place of the definition, the place of each member's delays.
    pub delays: Vec<Vec<u32>>,
}

/// Makes ready what a top reaches, whose instances these are and whose tick this is; there is no fault in its hierarchy. Refuses one of the faults of a module or of a
/// primitive's table. Takes memory in proportion to the definitions and to what is reached of them.
pub fn library_of<'t, 'a>(
    alloc: Global,
    corner: Corner,
    tick: Unit,
    definitions: &Definitions<'t, 'a>,
    instances: &[Placed<'t, 'a>],
) -> Result<Library<'t, 'a>, Refused<ElabKind>>
    requires below { (top : Module) × ArePlaced definitions.now instances.now (def.instances definitions.now top) × (tick.power ≡ tick_of definitions.now top)
        × (tree_faults definitions.now top ≡ []) }
    ensures library { IfOk result (λ made. (top : Module) → ArePlaced definitions.now instances.now (def.instances definitions.now top) → tick.power ≡ tick_of definitions.now top
        → IsLibrary definitions.now corner top made) }
    ensures refused { IfErr result (λ r. (top : Module) → ArePlaced definitions.now instances.now (def.instances definitions.now top) → tick.power ≡ tick_of definitions.now top
        → RefusesReached definitions.now corner top r) }
{
    let mut udps = Vec::new(alloc);
    let parts = reached(alloc, definitions, instances, &mut udps)?;
    let mut gate_delays = Vec::new(alloc);
    let delays = check_modules(alloc, corner, tick, definitions, &parts, &mut gate_delays)?;
    Ok(Library {
        parts,
        udps,
        gate_delays,
        delays,
    })
}
