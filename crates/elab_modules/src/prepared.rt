// Modules made ready.
ghost use Rattle.std.specs.Prelude.{IfOk, IfErr};
ghost use Rattle.vl_tree.specs.Seen.{view_module};
ghost use Rattle.elab_model.specs.Faults.{RefusesOneOf};
ghost use Rattle.elab_model.specs.NameFaults.{declaration_faults};
ghost use Rattle.elab_modules.specs.Ready.{IsPrepared};

use elab_declared::port_list;
use elab_ends::{PathEnds, path_ends};
use elab_lates::{ModuleCopies, module_copies};
use elab_model::ElabKind;
use elab_names::check_declarations;
use elab_variables::{Member, Table, members};
use sg_text::Refused;
use std::alloc::Global;
use vl_tree::{Module, Name};

/// A module, with what its instances need of it: the list of its ports, its members in a row, the table of its variables, the output bits to which
/// its specify paths lead, and the delayed copies of signals for which its timing checks ask.
#[derive(Drop)]
pub struct Prepared<'t, 'a> {
    pub definition: &'t Module<'a>,
    pub ports: Vec<Name<'a>>,
    pub members: Vec<Member<'t, 'a>>,
    pub table: Table<'a>,
    pub ends: PathEnds,
    pub copies: ModuleCopies,
}

/// A module made ready, or one of the faults of its declarations. Takes memory in proportion to the module.
pub fn prepare<'t, 'a>(
    alloc: Global,
    definition: &'t Module<'a>,
) -> Result<Prepared<'t, 'a>, Refused<ElabKind>>
    ensures prepared { IfOk result (λ p. IsPrepared p (view_module definition.now)) }
    ensures refused { IfErr result (RefusesOneOf (declaration_faults (view_module definition.now))) }
{
    check_declarations(alloc, definition)?;
    let table = Table::of(alloc, definition)?;
    let ports = port_list(alloc, definition)?;
    let members = members(alloc, definition)?;
    let ends = path_ends(alloc, &table, &members)?;
    let copies = module_copies(alloc, &table, &members)?;
    Ok(Prepared {
        definition,
        ports,
        members,
        table,
        ends,
        copies,
    })
}
