// The members of all modules that stand ready.
ghost use Rattle.std.specs.Prelude.{◌≡◌, ◌≤◌, ◌≤ℤ◌, ◌++◌, All, List, [], Some, IfOk, IfErr, length, map};
ghost use Rattle.std.specs.List.{AllByRecursion};
ghost use Rattle.sg_delay.specs.declared.gates.GateDelays as ghost_delays;
ghost use Rattle.elab_variables.specs.Seen.{view_member};
ghost use Rattle.elab_modules.specs.declared.prepared.Prepared.{Prepared};
ghost use Rattle.elab_modules.specs.Ready.{AreReady, MemberReady};
ghost use Rattle.elab_modules.specs.Checking.{AreNamed, AreInTicks, AreChecked, IsModule, IsChecked, RefusesOne, RefusesPart};

use crate::{Ready, check_members};
use elab_hierarchy::Definitions;
use elab_model::ElabKind;
use sg_delay::{Corner, GateDelays};
use sg_text::Refused;
use sg_time::Unit;
use std::alloc::Global;

// Looks at the members of all modules and adds their delays to a table; answers the places in it, by the places of the definitions.
pub fn check_modules(
    alloc: Global,
    corner: Corner,
    tick: Unit,
    definitions: &Definitions,
    parts: &[Option<Ready>],
    gate_delays: &mut Vec<GateDelays>,
) -> Result<Vec<Vec<u32>>, Refused<ElabKind>>
    requires ready { AreReady definitions.now parts.now }
    requires named { AreNamed definitions.now parts.now }
    requires precision { AreInTicks tick.power parts.now }
    requires empty { gate_delays.old.items ≡ [] }
    ensures checked { IfOk result (λ delays. AreChecked definitions.now corner tick.power parts.now (length parts.now) gate_delays.new.items delays.items) }
    ensures refused { IfErr result (RefusesPart definitions.now corner tick.power parts.now) }
{
    let mut delays = Vec::new(alloc);
    for part in parts {
        let places = check_part(alloc, corner, tick, definitions, parts, part, gate_delays)?;
        delays.push(places)?;
    }
    Ok(delays)
}

// What is no module has no delays.
fn check_part(
    alloc: Global,
    corner: Corner,
    tick: Unit,
    definitions: &Definitions,
    parts: &[Option<Ready>],
    part: &Option<Ready>,
    gate_delays: &mut Vec<GateDelays>,
) -> Result<Vec<u32>, Refused<ElabKind>>
    requires ready { AreReady definitions.now parts.now }
    requires named { (p : Prepared) → IsModule part.now p → AllByRecursion (MemberReady definitions.now parts.now) (map view_member p.members.items) }
    requires precision { (p : Prepared) → IsModule part.now p → tick.power ≤ℤ p.definition.now.mark.scale.precision.power }
    requires counts { All (λ d. d.count ≤ 3) gate_delays.old.items }
    ensures counts { All (λ d. d.count ≤ 3) gate_delays.new.items }
    ensures kept { (more : List ghost_delays.GateDelays) × (gate_delays.new.items ≡ gate_delays.old.items ++ more) }
    ensures checked { IfOk result (λ list. (p : Prepared) → IsModule part.now p → IsChecked definitions.now corner tick.power gate_delays.new.items (Some list.items) p) }
    ensures refused { IfErr result (RefusesOne definitions.now corner tick.power part.now) }
{
    match part {
        Some(Ready::Module(prepared)) => {
            check_members(
                alloc,
                corner,
                tick,
                definitions,
                parts,
                prepared,
                gate_delays,
            )
        }
        Some(Ready::Primitive(_)) | None => Ok(Vec::new(alloc)),
    }
}
