// An agenda that keeps the transitions of all drivers in one vector.
ghost use Rattle.std.specs.Prelude.{◌≡◌, ℕ, ◌+◌, ◌<◌, ◌≤◌, List, [], ◌∷◌, ◌++◌, length, vec_len, replicate, position, IfOk, MatchOption};
ghost use Rattle.std.specs.List.Sorted.{IsPartitionPoint};
ghost use Rattle.std.specs.Vec.{vec_capacity};
ghost use Rattle.sg_model.specs.Pending.{first_of, rest_of, IsAbove};
ghost use Rattle.pulse_list.specs.Plain.{is_of, pair_of, pairs_of, Falls, IsRewritten};

use crate::agenda::Agenda;
use sg_logic::Value;
use sg_text::NoMemory;
use std::alloc::Global;
use std::marker::Model;

/// A transition that is pending.
#[derive(Clone, Copy)]
struct Pending {
    driver: u32,
    time: u64,
    value: Value,
}

// The place at which a transition of this time is inserted: behind all that are as late.
fn place_of(pending: &[Pending], time: u64) -> usize
    requires { Falls pending.now }
    ensures within { result ≤ length pending.now }
    ensures place { IsPartitionPoint (λ p. time ≤ p.time) (λ p. p.time < time) pending.now result }
{
    pending.partition_point(|p| time <= p.time)
}

// Inserts a driver's new latest transition.
fn insert(pending: &mut Vec<Pending>, new: Pending)
    requires room { vec_len pending.old < vec_capacity pending.old }
    requires falls { Falls pending.old.items }
    requires later { IsAbove new.time (pairs_of new.driver pending.old.items) }
    ensures pairs { IsRewritten pending.old.items pending.new.items new.driver
        (pair_of new ∷ pairs_of new.driver pending.old.items) }
    ensures falls { Falls pending.new.items }
    ensures len { vec_len pending.new ≡ vec_len pending.old + 1 }
    ensures capacity { vec_capacity pending.new ≡ vec_capacity pending.old }
{
    let inserted = pending.insert(place_of(pending, new.time), new);
    prove!(inserted.is_ok());
}

// The place of a driver's latest transition.
fn place_of_latest(pending: &[Pending], driver: u32) -> Option<usize>
    ensures { result ≡ position (is_of driver) pending.now }
{
    pending.iter().position(|p| p.driver == driver)
}

// Removes a driver's latest transition.
fn remove_latest(pending: &mut Vec<Pending>, driver: u32)
    requires falls { Falls pending.old.items }
    ensures pairs { IsRewritten pending.old.items pending.new.items driver
        (rest_of (pairs_of driver pending.old.items)) }
    ensures falls { Falls pending.new.items }
    ensures len { vec_len pending.new ≤ vec_len pending.old }
    ensures capacity { vec_capacity pending.new ≡ vec_capacity pending.old }
{
    if let Some(place) = place_of_latest(pending, driver) {
        pending.remove(place);
    }
}

// Removes all transitions of a driver.
fn remove_all(pending: &mut Vec<Pending>, driver: u32)
    requires falls { Falls pending.old.items }
    ensures pairs { IsRewritten pending.old.items pending.new.items driver [] }
    ensures falls { Falls pending.new.items }
    ensures len { vec_len pending.new ≤ vec_len pending.old }
    ensures capacity { vec_capacity pending.new ≡ vec_capacity pending.old }
{
    pending.retain(|p| p.driver != driver);
}

// A driver's latest transition.
fn latest(pending: &[Pending], driver: u32) -> Option<(u64, Value)>
    ensures { result ≡ first_of (pairs_of driver pending.now) }
{
    let latest = pending[place_of_latest(pending, driver)?];
    Some((latest.time, latest.value))
}

// The earliest transition of all, which stands at the end.
fn earliest(pending: &[Pending]) -> Option<Pending>
    ensures { MatchOption result (pending.now ≡ []) (λ p. (later : List Pending) × (pending.now ≡ later ++ p ∷ [])) }
{
    pending.last().copied()
}

/// An agenda in memory proportional to the drivers and to the transitions that are pending or reserved.
#[derive(Drop)]
pub struct PlainAgenda {
    // in order of time, the earliest at the end
    pending: Vec<Pending>,
    // how many each driver has
    counts: Vec<usize>,
}

impl Model for PlainAgenda {
    ghost use Rattle.std.specs.Prelude.{ℕ, ◌-◌, List, length, vec_len};
    ghost use Rattle.std.specs.Vec.{vec_capacity};
    ghost use Rattle.sg_logic.specs.declared.values.Value.{Value as NetValue};
    ghost use Rattle.pulse_list.specs.Plain.{table_of, IsPlain};

    ghost Value = { List (List (ℕ × NetValue)) × ℕ };

    ghost view = { λ a. (table_of (length a.counts.items) a.pending.items, vec_capacity a.pending - vec_len a.pending) };

    ghost invariant = { λ a. IsPlain a.pending.items a.counts.items };
}

impl PlainAgenda {
    /// An agenda of so many drivers, with nothing pending and no room.
    ///
    /// `NoMemory` where there is no memory for the drivers.
    pub fn new(alloc: Global, drivers: u32) -> Result<PlainAgenda, NoMemory>
        ensures { IfOk result (λ agenda. agenda.0 ≡ replicate drivers []) }
    {
        let counts = vec![in alloc; 0; drivers as usize]?;
        Ok(PlainAgenda {
            pending: Vec::new(alloc),
            counts,
        })
    }
}

impl Agenda for PlainAgenda {
    ghost lists = { λ a. a.0 };

    ghost spare = { λ a. a.1 };

    fn reserve(&mut self, n: u32) -> Result<(), NoMemory> {
        Ok(self.pending.reserve(n as usize)?)
    }

    fn append(&mut self, driver: u32, time: u64, value: Value) {
        insert(
            &mut self.pending,
            Pending {
                driver,
                time,
                value,
            },
        );
        self.counts[driver as usize] += 1;
    }

    fn drop_last(&mut self, driver: u32) {
        remove_latest(&mut self.pending, driver);
        self.counts[driver as usize] -= 1;
    }

    fn clear(&mut self, driver: u32) {
        if self.counts[driver as usize] == 0 {
            return;
        }
        remove_all(&mut self.pending, driver);
        self.counts[driver as usize] = 0;
    }

    fn last(&self, driver: u32) -> Option<(u64, Value)> {
        if self.counts[driver as usize] == 0 {
            return None;
        }
        latest(&self.pending, driver)
    }

    fn take_due(&mut self, now: u64) -> Option<(u32, Value)> {
        let due = earliest(&self.pending)?;
        if due.time != now {
            return None;
        }
        self.pending.pop();
        self.counts[due.driver as usize] -= 1;
        Some((due.driver, due.value))
    }

    fn least(&mut self) -> Option<u64> {
        Some(earliest(&self.pending)?.time)
    }
}
