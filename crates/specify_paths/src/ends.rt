// The two sides of paths.
ghost use Rattle.std.specs.Prelude.{◌++◌, IfOk};
ghost use Rattle.vl_tree.specs.Seen.{view_path};
ghost use Rattle.specify_model.specs.Faults as faults;
ghost use Rattle.specify_values.specs.Telling.{Tells};
ghost use Rattle.specify_paths.specs.Seen.{AreEnds};

use crate::terms::{Side, check_ports};
use elab_ends::terms_bits;
use elab_model::ElabKind;
use elab_variables::Table;
use sg_text::Refused;
use std::alloc::Global;
use vl_tree::{Arrow, SpecifyPath};

/// The bits of the two sides of a path, as places in the row of bits of the table.
#[derive(Debug, Drop)]
pub struct Ends {
    pub inputs: Vec<usize>,
    pub outputs: Vec<usize>,
}

/// The bits of a path's sides. Refuses a term that isn't declared (UnknownName), whose index is out of range or that isn't an input port at the one side or an output port at the other
/// (BadTerminal), at the name, and sides of different widths at => (WidthMismatch, at the path). Takes memory in proportion to the bits.
pub fn ends_of(alloc: Global, table: &Table, path: &SpecifyPath) -> Result<Ends, Refused<ElabKind>>
    ensures ends { IfOk result (λ e. AreEnds table.now (view_path path.now) e) }
    ensures told { Tells (faults.end_faults table.now (view_path path.now) ++ faults.side_faults table.now (view_path path.now)) result }
{
    check_ports(table, Side::Input, &path.sources)?;
    check_ports(table, Side::Output, &path.destination.terms)?;
    let inputs = terms_bits(alloc, table, &path.sources)?;
    let outputs = terms_bits(alloc, table, &path.destination.terms)?;
    if path.arrow == Arrow::Parallel && inputs.len() != outputs.len() {
        return Err(Refused::Fault {
            kind: ElabKind::WidthMismatch,
            place: path.place,
        });
    }
    Ok(Ends { inputs, outputs })
}
