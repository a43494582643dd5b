// Notifiers.
ghost use Rattle.std.specs.Prelude.{◌≡◌, ◌<◌, IfOk, IfSome, length};
ghost use Rattle.std.specs.Option.{option_map};
ghost use Rattle.vl_tree.specs.Seen.{view_name};
ghost use Rattle.elab_laws.specs.Handing.{all_bits};
ghost use Rattle.elab_model.specs.Bits.{variable_named};
ghost use Rattle.specify_model.specs.CheckFaults as faults;
ghost use Rattle.specify_model.specs.Checks.{reg_bit};
ghost use Rattle.elab_ends.specs.Seen.{bit_seen};
ghost use Rattle.specify_values.specs.Telling.{Tells};

use elab_model::ElabKind;
use elab_variables::Table;
use sg_text::Refused;
use vl_tree::Name;

// The bit of the reg of a name.
fn bit_of(table: &Table, name: Name) -> Result<usize, Refused<ElabKind>>
    ensures bit { IfOk result (λ i. bit_seen table.now i ≡ reg_bit (view_name name.entry)) }
    ensures row { IfOk result (λ i. i < length (all_bits table.now)) }
    ensures told { Tells (faults.found_notifier_faults (view_name name.entry) (variable_named table.now name.entry.text.now)) result }
{
    let Some(place) = table.find(name.text) else {
        return Err(Refused::Fault {
            kind: ElabKind::UnknownName,
            place: name.place,
        });
    };
    let row = table.row(place);
    if !row.reg {
        return Err(Refused::Fault {
            kind: ElabKind::BadTerminal,
            place: name.place,
        });
    }
    Ok(row.start)
}

/// The bit of a notifier, a place in the row of bits of the table (IEEE 1364-2005, 15.5). Refuses one that isn't declared (UnknownName) or is no reg (BadTerminal), at the name. Takes no memory.
pub fn notifier_bit(
    table: &Table,
    notifier: Option<Name>,
) -> Result<Option<usize>, Refused<ElabKind>>
    ensures bit { IfOk result (λ o. option_map (bit_seen table.now) o ≡ option_map reg_bit (option_map view_name notifier.entry)) }
    ensures row { IfOk result (λ o. IfSome o (λ i. i < length (all_bits table.now))) }
    ensures told { Tells (faults.notifier_faults table.now (option_map view_name notifier.entry)) result }
{
    match notifier {
        Some(name) => Ok(Some(bit_of(table, name)?)),
        None => Ok(None),
    }
}
