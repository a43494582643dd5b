// The delayed copies that timing checks see.
ghost use Rattle.std.specs.Prelude.{◌≡◌, ◌<◌, All, IfSome, length};
ghost use Rattle.std.specs.Option.{option_map};
ghost use Rattle.vl_tree.specs.Seen.{view_check, view_name};
ghost use Rattle.vl_tree.specs.Tree.{Module};
ghost use Rattle.elab_laws.specs.Handing.{all_bits};
ghost use Rattle.specify_model.specs.Checks as def;
ghost use Rattle.elab_ends.specs.Seen.{bit_seen};
ghost use Rattle.elab_lates.specs.Seen.{IsPlaceIn};
ghost use Rattle.specify_checks.specs.Copies.{both_at, copies_seen, place_among, AreTerminals, IsCheckOf, IsNamed, IsReady};

use crate::events::ModuleEvent;
use elab_lates::{DelayedCopy, ModuleCopies};
use elab_variables::Table;
use vl_tree::{Check, Name};

// The bit of the name that the text gives to a copy, if it gives one.
fn named_bit(table: &Table, name: Option<Name>) -> Option<usize>
    ensures bit { IsNamed table.now (option_map view_name name.entry) → option_map (bit_seen table.now) result ≡ option_map def.name_bit (option_map view_name name.entry) }
    ensures row { IsPlaceIn table.now result }
{
    let place = table.find(name?.text)?;
    Some(table.row(place).start)
}

// The place of the copy of a bit among those of the module.
fn place_of(
    table: &Table,
    copies: &ModuleCopies,
    signal: usize,
    name: Option<Name>,
) -> Option<usize>
    requires { signal < length (all_bits table.now) }
    ensures { IsNamed table.now (option_map view_name name.entry) → (m : Module) → IsReady m table.now copies.now
        → result ≡ place_among m (record { signal = bit_seen table.now signal; named = option_map def.name_bit (option_map view_name name.entry) }) }
{
    let named = named_bit(table, name);
    copies.find(DelayedCopy { signal, named })
}

/// The copies that a check sees in place of its terminals' bits (IEEE 1364-2005, 15.8), by their places among those of the module; one that takes no limits below 0 sees none. Takes no memory.
pub fn copies_of(
    table: &Table,
    copies: &ModuleCopies,
    text: &Check,
    refer: &ModuleEvent,
    datum: &Option<ModuleEvent>,
) -> Option<[usize; 2]>
    requires asked { (m : Module) × IsCheckOf m table.now copies.now (view_check text.now) }
    requires terminals { AreTerminals table.now (view_check text.now) refer.now datum.now }
    ensures copies { option_map (both_at (copies_seen table.now copies.now)) result ≡ def.check_copies table.now (view_check text.now) }
    ensures within { IfSome result (λ places. All (λ p. p < length copies.now.copies.items) places) }
{
    let Check::TwoLimits {
        delayed_reference,
        delayed_data,
        ..
    } = text
    else {
        return None;
    };
    let datum = datum.as_ref()?;
    let refer = place_of(table, copies, refer.bit, *delayed_reference)?;
    let datum = place_of(table, copies, datum.bit, *delayed_data)?;
    Some([refer, datum])
}
