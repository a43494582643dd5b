// Amounts in ticks.
ghost use Rattle.std.specs.Prelude.{◌≡◌, IfOk, flat_map};
ghost use Rattle.std.specs.Option.{option_map};
ghost use Rattle.vl_tree.specs.Seen.{view_amount, view_amounts, view_mtm};
ghost use Rattle.specify_model.specs.Faults as faults;
ghost use Rattle.specify_model.specs.Values as def;
ghost use Rattle.specify_values.specs.Seen.{measured, values_of};
ghost use Rattle.specify_values.specs.Telling.{Tells};

use crate::measures::Measure;
use crate::parameters::Parameters;
use crate::ticks::ticks;
use elab_model::ElabKind;
use sg_delay::Corner;
use sg_text::{Place, Refused};
use vl_tree::{Amount, Amounts, MinTypMax};

/// Refuses a specparam that there isn't (BadDelay, at the name).
pub fn check_known(parameters: &Parameters, amount: &Amount) -> Result<(), Refused<ElabKind>>
    ensures { Tells (faults.unknown_faults (values_of parameters.now) (view_amount amount.now)) result }
{
    let Amount::Parameter(name) = amount else {
        return Ok(());
    };
    match parameters.value(name.text) {
        Some(_) => Ok(()),
        None => Err(Refused::Fault {
            kind: ElabKind::BadDelay,
            place: name.place,
        }),
    }
}

// The same of each part.
fn check_all_known(parameters: &Parameters, amounts: &Amounts) -> Result<(), Refused<ElabKind>>
    ensures { Tells (flat_map (faults.unknown_faults (values_of parameters.now)) (faults.amount_parts (view_amounts amounts.now))) result }
{
    match amounts {
        Amounts::One(amount) => check_known(parameters, amount),
        Amounts::Three { min, typ, max } => {
            check_known(parameters, min)?;
            check_known(parameters, typ)?;
            check_known(parameters, max)
        }
    }
}

// The part that a corner takes.
fn corner_amount<'a>(corner: Corner, amounts: &Amounts<'a>) -> Amount<'a>
    ensures { view_amount result ≡ def.corner_amount corner (view_amounts amounts.now) }
{
    match (amounts, corner) {
        (Amounts::One(amount), _) => *amount,
        (Amounts::Three { min, .. }, Corner::Min) => *min,
        (Amounts::Three { typ, .. }, Corner::Typ) => *typ,
        (Amounts::Three { max, .. }, Corner::Max) => *max,
    }
}

/// Where an amount stands.
pub fn place_of(amount: &Amount) -> Place
    ensures { result ≡ faults.amount_place (view_amount amount.now) }
{
    match amount {
        Amount::Number { place, .. } => *place,
        Amount::Parameter(name) => name.place,
    }
}

// What is written or given, if it is.
fn value_of(parameters: &Parameters, amount: &Amount) -> Option<MinTypMax>
    ensures { option_map view_mtm result ≡ def.amount_value (values_of parameters.now) (view_amount amount.now) }
{
    match amount {
        Amount::Number { value, .. } => Some(MinTypMax::One(*value)),
        Amount::Parameter(name) => parameters.value(name.text),
    }
}

/// What is written or given, in ticks; nothing is 0. Refuses 2^60 ticks and more (BadDelay, at the amount).
pub fn amount_ticks(
    by: Measure,
    parameters: &Parameters,
    amount: &Amount,
) -> Result<u64, Refused<ElabKind>>
    ensures ticks { IfOk result (λ n. n ≡ def.amount_ticks (measured by) (values_of parameters.now) (view_amount amount.now)) }
    ensures told { Tells (faults.long_faults (measured by) (values_of parameters.now) (view_amount amount.now)) result }
{
    let Some(value) = value_of(parameters, amount) else {
        return Ok(0);
    };
    match ticks(by, &value) {
        Some(ticks) => Ok(ticks),
        None => Err(Refused::Fault {
            kind: ElabKind::BadDelay,
            place: place_of(amount),
        }),
    }
}

/// A delay in ticks. Refuses a specparam that there isn't, in any of its parts, and 2^60 ticks and more of the corner's part (BadDelay, at the amount).
pub fn delay_ticks(
    by: Measure,
    parameters: &Parameters,
    amounts: &Amounts,
) -> Result<u64, Refused<ElabKind>>
    ensures ticks { IfOk result (λ n. n ≡ def.delay_ticks (measured by) (values_of parameters.now) (view_amounts amounts.now)) }
    ensures told { Tells (faults.delay_faults (measured by) (values_of parameters.now) (view_amounts amounts.now)) result }
{
    check_all_known(parameters, amounts)?;
    amount_ticks(by, parameters, &corner_amount(by.corner, amounts))
}
