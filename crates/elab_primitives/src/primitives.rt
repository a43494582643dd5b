// User-defined primitives.
ghost use Rattle.std.specs.Prelude.{◌≡◌, IfOk, OnOk, IfErr, option_map};
ghost use Rattle.udp_rows.specs.Faults.{HasNoFault, first_place};
ghost use Rattle.vl_tree.specs.Seen.{view_initial, view_primitive};
ghost use Rattle.elab_model.specs.Primitives as def;
ghost use Rattle.elab_primitives.specs.Refusals.{RefusesPrimitive, RefusesTable, IsFaultless};

use crate::declarations::check_declarations;
use elab_model::ElabKind;
use sg_circuit::UdpUse;
use sg_logic::Value;
use sg_text::{Place, Refused};
use std::alloc::Global;
use udp_rows::{RawRow, UdpKind, UdpRows};
use vl_tree::{Initial, Primitive};

/// The table of a user-defined primitive and the state that its instances begin with (IEEE 1364-2005, clause 8, 8.5). Refuses a name that stands twice (DuplicateName), one
/// that isn't a port (UnknownName), ports, regs or an initial value that don't fit together (BadTerminal), each at the name, and faults of the table (Udp). Takes memory in
/// proportion to the primitive.
pub fn check_primitive(alloc: Global, primitive: &Primitive) -> Result<UdpUse, Refused<ElabKind>>
    ensures rows { IfOk result (λ u. u.rows ≡ def.table_of (view_primitive primitive.now)) }
    ensures first { IfOk result (λ u. u.first ≡ def.initial_value (view_primitive primitive.now).initial) }
    ensures faultless { OnOk result (IsFaultless (view_primitive primitive.now)) }
    ensures refused { IfErr result (RefusesPrimitive (view_primitive primitive.now)) }
{
    let sequential = check_declarations(alloc, primitive)?;
    let rows = check_table(alloc, primitive, sequential)?;
    Ok(UdpUse {
        rows,
        first: initial_value(&primitive.initial),
    })
}

fn check_table(
    alloc: Global,
    primitive: &Primitive,
    sequential: bool,
) -> Result<UdpRows, Refused<ElabKind>>
    requires { sequential ≡ def.is_sequential (view_primitive primitive.now) }
    ensures rows { IfOk result (λ rows. rows ≡ def.table_of (view_primitive primitive.now)) }
    ensures faultless { OnOk result (HasNoFault (def.input_count (view_primitive primitive.now)) (def.is_sequential (view_primitive primitive.now)) (view_primitive primitive.now).rows) }
    ensures refused { IfErr result (RefusesTable (view_primitive primitive.now)) }
{
    let Ok(inputs) = u32::try_from(primitive.ports.len().saturating_sub(1)) else {
        return Err(Refused::Fault {
            kind: ElabKind::Udp(UdpKind::TooManyInputs),
            place: place_of_table(&primitive.rows),
        });
    };
    match UdpRows::check(alloc, inputs, sequential, &primitive.rows) {
        Ok(rows) => Ok(rows),
        Err(Refused::Fault { kind, place }) => Err(Refused::Fault {
            kind: ElabKind::Udp(kind),
            place,
        }),
        Err(Refused::NoMemory) => Err(Refused::NoMemory),
    }
}

// The place of the first row, or else the first byte of the first file.
fn place_of_table(rows: &[RawRow]) -> Place
    ensures { result ≡ first_place rows.now }
{
    match rows {
        [first, ..] => first.place,
        [] => Place { file: 0, byte: 0 },
    }
}

fn initial_value(initial: &Option<Initial>) -> Value
    ensures { result ≡ def.initial_value (option_map view_initial initial.now) }
{
    match initial {
        Some(initial) => initial.value,
        None => Value::X,
    }
}
