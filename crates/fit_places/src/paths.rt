// Paths for which entries are (IEEE 1497-2001, IOPATH, COND and CONDELSE).
use crate::bits::{common_bit, port_net, positions};
use crate::events::{CellEdge, key_of};
use crate::modules::Module;
use crate::specify::{CellPath, PathWhen};
use fit_delays::{Bits, Condition, Draft, Port, Term, When, none_of};
use sdf_lex::called;
use sdf_tree::Keyword;
use sg_text::NoMemory;
use std::alloc::Global;
use vl_tree::Direction;

/// How an entry fits the paths of a module.
#[derive(Clone, Copy)]
pub enum PathFit {
    Nowhere,
    AsItStands,
    /// With the condition of the path at this place of the module, as it is spelled there.
    With(usize),
    /// Without a condition.
    Bare,
}

/// Whether an entry's edge is one that is stated.
pub fn is_edge(word: Option<Keyword>, edge: CellEdge) -> bool {
    match word {
        None => true,
        Some(Keyword::Posedge) => edge == CellEdge::Posedge,
        Some(Keyword::Negedge) => edge == CellEdge::Negedge,
        _ => false,
    }
}

fn is_single(bits: Bits) -> bool {
    match bits {
        Bits::One(_) => true,
        _ => false,
    }
}

// Whether a path leads between bits of two ports; a path bit by bit between those of one position.
fn leads(module: &Module<'_, '_>, path: &CellPath<'_>, from: Bits, to: Bits) -> bool {
    let ends = (
        common_bit(module, &path.from, from),
        common_bit(module, &path.to, to),
    );
    match ends {
        (Some(first), Some(second)) => {
            !path.is_parallel || !is_single(from) || !is_single(to) || first == second
        }
        _ => false,
    }
}

// The places of the paths between bits of two ports.
fn between(
    alloc: Global,
    module: &Module<'_, '_>,
    from: &Term<'_>,
    to: &Term<'_>,
) -> Result<Vec<usize>, NoMemory> {
    let from_name = called(alloc, from.port.path)?;
    let to_name = called(alloc, to.port.path)?;
    let key = key_of(alloc, &from_name, &to_name)?;
    let mut list = Vec::new(alloc);
    for place in module.path_keys.get(&key) {
        if let Some(path) = module.paths.get(*place) {
            if leads(module, path, from.port.bits, to.port.bits) {
                list.push(*place)?;
            }
        }
    }
    Ok(list)
}

// Whether an entry is for a path as it stands, but for its ports.
fn fits(draft: &Draft<'_, '_>, edge: Option<Keyword>, path: &CellPath<'_>) -> bool {
    if !is_edge(edge, path.edge) {
        return false;
    }
    match (&draft.when, &path.when) {
        (When::Always, _) => true,
        (When::If(condition), PathWhen::If(own)) => condition.spelled == own.spelled,
        (When::Else, PathWhen::IfNone) => true,
        _ => false,
    }
}

fn fits_any(
    module: &Module<'_, '_>,
    draft: &Draft<'_, '_>,
    edge: Option<Keyword>,
    places: &[usize],
) -> bool {
    for place in places {
        if let Some(path) = module.paths.get(*place) {
            if fits(draft, edge, path) {
                return true;
            }
        }
    }
    false
}

// The path whose condition means the same.
fn same_meaning(
    module: &Module<'_, '_>,
    places: &[usize],
    edge: Option<Keyword>,
    condition: &Condition,
) -> PathFit {
    for place in places {
        if let Some(path) = module.paths.get(*place) {
            if is_edge(edge, path.edge) && means(path, &condition.meant) {
                return PathFit::With(*place);
            }
        }
    }
    PathFit::Nowhere
}

fn means(path: &CellPath<'_>, meant: &Vec<u8>) -> bool {
    match &path.when {
        PathWhen::If(own) => own.meant == *meant,
        _ => false,
    }
}

// Adds the meaning of a path's condition, if it has an edge or any.
fn add_meaning(
    alloc: Global,
    path: &CellPath<'_>,
    edge: CellEdge,
    list: &mut Vec<Vec<u8>>,
) -> Result<(), NoMemory> {
    if path.edge != edge && path.edge != CellEdge::Any {
        return Ok(());
    }
    if let PathWhen::If(own) = &path.when {
        list.push(Vec::from_slice(alloc, &own.meant)?)?;
    }
    Ok(())
}

// Whether the condition of a path says that those of all others of its ends are 0.
fn is_other(
    alloc: Global,
    module: &Module<'_, '_>,
    places: &[usize],
    path: &CellPath<'_>,
    own: usize,
) -> Result<bool, NoMemory> {
    let mut list = Vec::new(alloc);
    for place in places {
        if *place != own {
            if let Some(other) = module.paths.get(*place) {
                add_meaning(alloc, other, path.edge, &mut list)?;
            }
        }
    }
    let meant = none_of(alloc, &list)?;
    Ok(!list.is_empty() && means(path, &meant))
}

// The path that is taken where no condition of the others holds: its condition says so, or there are no others.
fn other_path(
    alloc: Global,
    module: &Module<'_, '_>,
    places: &[usize],
    edge: Option<Keyword>,
) -> Result<PathFit, NoMemory> {
    let mut bare: u32 = 0;
    let mut conditional = false;
    for place in places {
        let Some(path) = module.paths.get(*place) else {
            continue;
        };
        if !is_edge(edge, path.edge) {
            continue;
        }
        if is_other(alloc, module, places, path, *place)? {
            return Ok(PathFit::With(*place));
        }
        match &path.when {
            PathWhen::Always => bare = bare.saturating_add(1),
            _ => conditional = true,
        }
    }
    if bare == 1 && !conditional {
        return Ok(PathFit::Bare);
    }
    Ok(PathFit::Nowhere)
}

/// How an entry fits the paths of a module. Takes memory.
pub fn path_fit(
    alloc: Global,
    module: &Module<'_, '_>,
    draft: &Draft<'_, '_>,
) -> Result<PathFit, NoMemory> {
    let [from, to] = draft.terms.as_slice() else {
        return Ok(PathFit::Nowhere);
    };
    let places = between(alloc, module, from, to)?;
    if fits_any(module, draft, from.edge, &places) {
        return Ok(PathFit::AsItStands);
    }
    match &draft.when {
        When::Always => Ok(PathFit::Nowhere),
        When::If(condition) => Ok(same_meaning(module, &places, from.edge, condition)),
        When::Else => other_path(alloc, module, &places, from.edge),
    }
}

/// Whether a module has a path to an output, or any path where none is named. Takes memory.
pub fn reaches(
    alloc: Global,
    module: &Module<'_, '_>,
    output: Option<Port<'_>>,
) -> Result<bool, NoMemory> {
    let Some(port) = output else {
        return Ok(!module.paths.is_empty());
    };
    let name = called(alloc, port.path)?;
    let is_there = match port_net(module, &name, Some(Direction::Output)) {
        Some(net) => positions(net, port.bits).is_some(),
        None => false,
    };
    Ok(
        is_there
            && module.paths.iter().any(|path| {
                path.to.name.text == name.as_slice()
                    && common_bit(module, &path.to, port.bits).is_some()
            }),
    )
}
