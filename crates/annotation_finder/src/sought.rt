// What an entry asks for.
ghost use Rattle.std.specs.Prelude.{◌≡◌, IfOk, None};
ghost use Rattle.std.specs.Option.{option_map};
ghost use Rattle.sdf_tree.specs.Written.{always};
ghost use Rattle.sdf_tree.specs.Seen.{view_condition, view_port, view_ports};
ghost use Rattle.sdf_meaning.specs.MeantSeen.{view_kind};
ghost use Rattle.annotation_finder.specs.Sought as search;
ghost use Rattle.annotation_finder.specs.Sought.{named, search_for, sought_seen};

use crate::ports::NamedPort;
use annotation_conditions::{Wanted, what_is_wanted};
use sdf_tree::{Divider, Edge, EntryKind, PathCondition, Port, PortPair, Terminal};
use sg_text::NoMemory;
use std::alloc::Global;

/// The legs or specify paths of a cell's scopes that an entry asks for, if it asks for some.
#[derive(Debug, Drop)]
pub enum Sought {
    /// The paths between two ports, of an edge and a condition.
    Between {
        from: NamedPort,
        edge: Option<Edge>,
        to: NamedPort,
        condition: Wanted,
    },
    /// The paths to an output port.
    ToOutput(NamedPort),
    AllPaths,
    /// The legs to an input port that is named below the scopes.
    ToInput(NamedPort),
    /// Those that lead there from another port.
    Connecting {
        from: NamedPort,
        to: NamedPort,
    },
    Nothing,
}

impl Sought {
    /// What an entry asks for. Takes memory.
    pub fn of(alloc: Global, divider: Divider, kind: &EntryKind<'_>) -> Result<Sought, NoMemory>
        ensures { IfOk result (λ sought. sought_seen sought ≡ search_for divider (view_kind kind.now)) }
    {
        match kind {
            EntryKind::IoPath {
                condition,
                from,
                to,
                ..
            } => between(alloc, divider, condition, from, to),
            EntryKind::Device { output, .. } => of_device(alloc, divider, output),
            EntryKind::PathPulse { ports, .. } => of_pulses(alloc, divider, ports),
            EntryKind::Port { port, .. } => to_input(alloc, divider, port),
            EntryKind::Interconnect { from, to, .. } => connecting(alloc, divider, from, to),
            EntryKind::Check(_) | EntryKind::Skipped(_) => Ok(Sought::Nothing),
        }
    }
}

fn between(
    alloc: Global,
    divider: Divider,
    condition: &PathCondition<'_>,
    from: &Terminal<'_>,
    to: &Port<'_>,
) -> Result<Sought, NoMemory>
    ensures { IfOk result (λ sought. sought_seen sought ≡ search.between (named divider (view_port from.now.port)) from.now.edge (named divider (view_port to.now)) (view_condition condition.now)) }
{
    let named_from = NamedPort::of(alloc, divider, &from.port)?;
    let named_to = NamedPort::of(alloc, divider, to)?;
    let wanted = what_is_wanted(alloc, condition)?;
    Ok(Sought::Between {
        from: named_from,
        edge: from.edge,
        to: named_to,
        condition: wanted,
    })
}

fn of_device(alloc: Global, divider: Divider, output: &Option<Port<'_>>) -> Result<Sought, NoMemory>
    ensures { IfOk result (λ sought. sought_seen sought ≡ search.for_device divider (option_map view_port output.now)) }
{
    match output {
        Some(port) => Ok(Sought::ToOutput(NamedPort::of(alloc, divider, port)?)),
        None => Ok(Sought::AllPaths),
    }
}

fn between_ports(alloc: Global, divider: Divider, ports: &PortPair<'_>) -> Result<Sought, NoMemory>
    ensures { IfOk result (λ sought. sought_seen sought ≡ search.between (named divider (view_port ports.now.from)) None (named divider (view_port ports.now.to)) always) }
{
    let from = NamedPort::of(alloc, divider, &ports.from)?;
    let to = NamedPort::of(alloc, divider, &ports.to)?;
    Ok(Sought::Between {
        from,
        edge: None,
        to,
        condition: Wanted::Any,
    })
}

fn of_pulses(
    alloc: Global,
    divider: Divider,
    ports: &Option<PortPair<'_>>,
) -> Result<Sought, NoMemory>
    ensures { IfOk result (λ sought. sought_seen sought ≡ search.for_pulses divider (option_map view_ports ports.now)) }
{
    match ports {
        Some(ports) => between_ports(alloc, divider, ports),
        None => Ok(Sought::AllPaths),
    }
}

fn to_input(alloc: Global, divider: Divider, port: &Port<'_>) -> Result<Sought, NoMemory>
    ensures { IfOk result (λ sought. sought_seen sought ≡ search.to_input (named divider (view_port port.now))) }
{
    Ok(Sought::ToInput(NamedPort::of(alloc, divider, port)?))
}

fn connecting(
    alloc: Global,
    divider: Divider,
    from: &Port<'_>,
    to: &Port<'_>,
) -> Result<Sought, NoMemory>
    ensures { IfOk result (λ sought. sought_seen sought ≡ search.connecting (named divider (view_port from.now)) (named divider (view_port to.now))) }
{
    let named_from = NamedPort::of(alloc, divider, from)?;
    let named_to = NamedPort::of(alloc, divider, to)?;
    Ok(Sought::Connecting {
        from: named_from,
        to: named_to,
    })
}
