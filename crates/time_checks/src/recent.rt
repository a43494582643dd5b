// What is kept of a timing check's events.
ghost use Rattle.std.specs.Prelude.{◌≡◌, ◌<◌, ℕ, IfOk, length};
ghost use Rattle.time_checks.specs.Checking.{latest_at, recent_of};
ghost use Rattle.time_checks.specs.Violations.{earlier_at};
ghost use Rattle.time_checks.specs.Kept.{datum_below, next_of, next_time};

use crate::events::Events;
use crate::latest::Latest;
use sg_text::NoMemory;
use std::alloc::Global;

/// The latest times of a check's events: of its reference, of its data, and of its data before that.
#[derive(Clone, Copy)]
pub struct Recent {
    pub refer: Option<u64>,
    pub datum: Option<u64>,
    pub earlier: Option<u64>,
}

// What is known of a check's events before anything was seen.
fn recall(earlier: &[Latest], check: usize) -> Recent
    ensures { result ≡ recent_of (earlier_at earlier.now check) }
{
    match earlier.get(check) {
        Some(latest) => Recent {
            refer: latest.refer,
            datum: latest.datum,
            earlier: None,
        },
        None => Recent {
            refer: None,
            datum: None,
            earlier: None,
        },
    }
}

/// What is kept of so many checks before anything was seen.
pub fn recalled(alloc: Global, checks: usize, earlier: &[Latest]) -> Result<Vec<Recent>, NoMemory>
    ensures many { IfOk result (λ v. length v.items ≡ checks) }
    ensures each { IfOk result (λ v. (check : ℕ) → check < checks → latest_at v.items check ≡ recent_of (earlier_at earlier.now check)) }
{
    let mut recent = Vec::with_capacity(alloc, checks)?;
    for check in 0..checks {
        recent.push(recall(earlier, check))?;
    }
    Ok(recent)
}

/// The greatest time of a data event below this one.
pub fn below(latest: Recent, time: u64) -> Option<u64>
    ensures { result ≡ datum_below latest.datum latest.earlier time }
{
    match latest.datum {
        Some(datum) if datum < time => Some(datum),
        Some(_) => latest.earlier,
        None => None,
    }
}

fn later(happens: bool, time: u64, before: Option<u64>) -> Option<u64>
    ensures { result ≡ next_time happens time before }
{
    if happens { Some(time) } else { before }
}

/// The latest times after a snapshot.
pub fn after(latest: Recent, events: Events, time: u64) -> Recent
    ensures { result ≡ next_of time events latest }
{
    Recent {
        refer: later(events.refer, time, latest.refer),
        datum: later(events.datum, time, latest.datum),
        earlier: if events.datum {
            below(latest, time)
        } else {
            latest.earlier
        },
    }
}
