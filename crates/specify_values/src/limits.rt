// The limits of the pulses of paths.
ghost use Rattle.std.specs.Prelude.{◌≡◌, IfOk, List, OnOk, flat_map, map};
ghost use Rattle.std.specs.Option.{option_map};
ghost use Rattle.elab_model.specs.Names.{Variable};
ghost use Rattle.specify_model.specs.Faults.{pulse_faults};
ghost use Rattle.specify_model.specs.PulseLimits.{is_port, limits_of};
ghost use Rattle.specify_values.specs.PortNames.{AreNames};
ghost use Rattle.specify_values.specs.Seen.{IsAdded, view_pulse, measured, widths_seen, limits_seen};
ghost use Rattle.specify_values.specs.Telling.{Tells};

use crate::items::Pulse;
use crate::measures::Measure;
use crate::port_names::{PortNames, names_of_ports};
use crate::pulses::{ends_text, named_ends, widths_of};
use elab_model::ElabKind;
use elab_variables::Table;
use indexmap::IndexMap;
use sg_delay::Widths;
use sg_text::Refused;
use std::alloc::Global;

/// The limits that specparams give to the pulses of a module's paths, by the ports from which and to which these lead.
#[derive(Debug, Drop)]
pub struct PulseLimits<'a> {
    named: IndexMap<(&'a [u8], &'a [u8]), Widths>,
    others: Option<Widths>,
}

impl<'a> PulseLimits<'a> {
    /// The limits of the paths from one port to another, where a text gives them.
    pub fn between(&self, input: &'a [u8], output: &'a [u8]) -> Option<Widths>
        ensures { option_map widths_seen result ≡ limits_seen self.now input.now output.now }
    {
        match self.named.get(&(input, output)) {
            Some(widths) => Some(*widths),
            None => self.others,
        }
    }
}

/// Pulse limits by the ports that their names say (IEEE 1364-2005, 14.6.1). Refuses a name that says no two ports (UnknownName), limits of 2^60 ticks and more, and a reject limit above the
/// error limit (BadDelay), each at the name. Takes memory in proportion to the list and to the names of the table, and time in proportion to the texts of both.
pub fn pulse_limits<'a>(
    alloc: Global,
    by: Measure,
    table: &Table,
    list: &[Pulse<'a>],
) -> Result<PulseLimits<'a>, Refused<ElabKind>>
    ensures limits { IfOk result (λ l. limits_seen l ≡ limits_of (measured by) table.now (map view_pulse list.now)) }
    ensures told { Tells (flat_map (pulse_faults (measured by) table.now) (map view_pulse list.now)) result }
{
    let mut limits = PulseLimits {
        named: IndexMap::new(alloc),
        others: None,
    };
    if list.is_empty() {
        return Ok(limits);
    }
    let names = names_of_ports(alloc, table)?;
    for pulse in list {
        add_pulse(alloc, by, &names, *pulse, &mut limits)?;
    }
    Ok(limits)
}

fn add_pulse<'a>(
    alloc: Global,
    by: Measure,
    names: &PortNames,
    pulse: Pulse<'a>,
    limits: &mut PulseLimits<'a>,
) -> Result<(), Refused<ElabKind>>
    ensures limits { OnOk result ((vs : List Variable) → AreNames (is_port vs) names.now → IsAdded (measured by) vs limits.old limits.new (view_pulse pulse.entry)) }
    ensures told { (vs : List Variable) → AreNames (is_port vs) names.now → Tells (pulse_faults (measured by) vs (view_pulse pulse.entry)) result }
{
    let place = pulse.name.place;
    let Some(widths) = widths_of(by, pulse) else {
        return Err(Refused::Fault {
            kind: ElabKind::BadDelay,
            place,
        });
    };
    let text = ends_text(pulse);
    if text.is_empty() {
        limits.others = Some(widths);
        return Ok(());
    }
    let Some(ends) = named_ends(alloc, names, text)? else {
        return Err(Refused::Fault {
            kind: ElabKind::UnknownName,
            place,
        });
    };
    limits.named.insert(ends, widths)?;
    Ok(())
}
