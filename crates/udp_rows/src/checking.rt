// The fault of a table that is answered.
ghost use Rattle.std.specs.Prelude.{◌≡◌, IfOk, MatchOption};
ghost use Rattle.udp_rows.specs.Faults.{FaultStands, HasNoFault};

use crate::clashes::first_clash;
use crate::faults::{bad_symbol, first_place, most_inputs, two_edges, wrong_length};
use crate::{RawRow, UdpKind};
use sg_text::{NoMemory, Place};
use std::alloc::Global;

/// A fault that stands, if any does.
pub(crate) fn fault_of(inputs: u32, sequential: bool, rows: &[RawRow]) -> Option<(UdpKind, Place)>
    ensures { MatchOption result (HasNoFault inputs sequential rows.now) (λ fault. FaultStands inputs sequential rows.now fault.0 fault.1) }
{
    if inputs > most_inputs(sequential) {
        return Some((UdpKind::TooManyInputs, first_place(rows)));
    }
    if let Some(row) = wrong_length(inputs, sequential, rows) {
        return Some((UdpKind::RowLength, row.place));
    }
    if let Some(row) = bad_symbol(sequential, rows) {
        return Some((UdpKind::BadSymbol, row.place));
    }
    if let Some(row) = two_edges(rows) {
        return Some((UdpKind::TwoEdges, row.place));
    }
    let place = first_clash(rows)?;
    Some((UdpKind::Clash, place))
}

/// Copies of rows.
pub(crate) fn copies(alloc: Global, rows: &[RawRow]) -> Result<Vec<RawRow>, NoMemory>
    ensures { IfOk result (λ copies. copies.items ≡ rows.now) }
{
    let mut copies = Vec::with_capacity(alloc, rows.len())?;
    for row in rows {
        copies.push(row.copy(alloc)?)?;
    }
    Ok(copies)
}
