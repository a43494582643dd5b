// The netlist's fitting, as far as included files are known.
ghost use Rattle.std.specs.Prelude.{◌≡◌, ◌<◌, IfOk, length, map, option_map};
ghost use Rattle.fit_words.specs.WordsSeen.{asked_seen};
ghost use Rattle.fit_top.specs.Work.{IsAttempt};

use fit_changes::Unfit;
use fit_items::Wishes;
use fit_netlist::{FitError, Fitted, fit_netlist};
use fit_text::{Given, Included};
use fit_words::Asked;
use sg_text::NoMemory;
use std::alloc::Global;

/// What comes of a netlist with the included files that are known.
#[derive(Drop)]
pub enum Attempt {
    /// The netlist as it is to be written.
    Fitted(Fitted),
    /// The places that aren't taken.
    Unfit(Vec<Unfit>),
    /// A file isn't known yet that is included: in which, and its name there.
    Wants { from: Vec<u8>, name: Vec<u8> },
}

// What the words give and wish.
fn given<'g>(asked: &'g Asked<'g>, included: &'g [Included]) -> Given<'g>
    ensures { length result.defines.now ≡ length (asked_seen asked.now).defines }
{
    Given {
        names: &asked.netlists,
        defines: &asked.defines,
        included,
    }
}

fn wishes<'w>(asked: &'w Asked<'w>) -> Wishes<'w>
    ensures top { option_map (λ n. n.now) result.top ≡ (asked_seen asked.now).top }
    ensures supplies { (length result.supply0.now ≡ length (asked_seen asked.now).supply0) × (length result.supply1.now ≡ length (asked_seen asked.now).supply1) }
    ensures dropped { (length result.cut.now ≡ length (asked_seen asked.now).cut) × (length result.drop.now ≡ length (asked_seen asked.now).dropped) × (result.drop_missing ≡ asked.now.drop_missing) }
    ensures checks { (length result.no_checks.now ≡ length (asked_seen asked.now).no_checks) × (length result.no_notifier.now ≡ length (asked_seen asked.now).no_notifier) }
{
    Wishes {
        top: asked.top,
        supply0: &asked.supply0,
        supply1: &asked.supply1,
        cut: &asked.cut,
        drop: &asked.dropped,
        drop_missing: asked.drop_missing,
        no_checks: &asked.no_checks,
        no_notifier: &asked.no_notifier,
    }
}

/// The netlist as it is to be written, or the places that aren't taken, or the next file that is to be read.
pub fn fit_known(
    alloc: Global,
    asked: &Asked<'_>,
    texts: &[Vec<u8>],
    included: &[Included],
) -> Result<Attempt, NoMemory>
    ensures { IfOk result (IsAttempt (asked_seen asked.now) (map (λ t. t.items) texts.now)) }
{
    match fit_netlist(alloc, texts, &given(asked, included), &wishes(asked)) {
        Ok(fitted) => Ok(Attempt::Fitted(fitted)),
        Err(FitError::Unfit(places)) => Ok(Attempt::Unfit(places)),
        Err(FitError::Wants { from, name }) => Ok(Attempt::Wants { from, name }),
        Err(FitError::NoMemory) => Err(NoMemory),
    }
}

/// The place of an included file that isn't read.
pub fn missing_include(alloc: Global, name: &[u8]) -> Result<Vec<Unfit>, NoMemory>
    ensures { IfOk result (λ places. 0 < length places.items) }
{
    let mut kind = Vec::from_slice(alloc, b"Unsupported include ")?;
    kind.extend_from_slice(name)?;
    let mut places = Vec::new(alloc);
    places.push(Unfit {
        file: 0,
        line: 1,
        kind,
        part: Vec::new(alloc),
    })?;
    Ok(places)
}
