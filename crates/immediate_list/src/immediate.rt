// An agenda with a list in front of it.
ghost use Rattle.std.specs.Prelude.{◌≡◌, ℕ, ◌+◌, ◌-◌, ◌<◌, ◌≤◌, [], IfOk, length, min, replicate};
ghost use Rattle.std.specs.Bool.{OnFalse, OnTrue};
ghost use Rattle.std.specs.Vec.{vec_capacity};
ghost use Rattle.sg_logic.specs.Values.{is_same};
ghost use Rattle.sg_model.specs.Agenda.{list_at, with_list};
ghost use Rattle.sg_model.specs.Pending.{put};
ghost use Rattle.immediate_list.specs.Standings.{least_of, lists_of, IsImmediate};

use crate::flushing::{flush, settle};
use crate::standings::{Front, Standing, enlist, is_nothing, unlist};
use pulse_list::Agenda;
use sg_logic::Value;
use sg_text::NoMemory;
use std::alloc::Global;
use std::marker::Model;

/// An agenda in front of which a list holds what takes effect in the next round of the same time: of each driver that
/// is listed this one transition. The agenda has room for it, so it can take the list over at any time.
#[derive(Drop)]
pub struct Immediate<A: Agenda> {
    agenda: A,
    // that of the listed transitions
    time: u64,
    front: Front,
}

impl<A: Agenda> Model for Immediate<A> {
    ghost use Rattle.std.specs.Prelude.{ℕ, ◌-◌, List, length};
    ghost use Rattle.std.specs.Vec.{vec_capacity};
    ghost use Rattle.sg_logic.specs.declared.values.Value.{Value as NetValue};
    ghost use Rattle.immediate_list.specs.Standings.{lists_of, IsImmediate};

    ghost Value = { List (List (ℕ × NetValue)) × ℕ };

    ghost view = { λ a. (lists_of a.time a.front.standings.items (A.lists a.agenda), A.spare a.agenda - length a.front.drivers.items) };

    ghost invariant = { λ a. IsImmediate a.front.standings.items a.front.drivers.items (vec_capacity a.front.drivers) (A.spare a.agenda) (A.lists a.agenda) };
}

// The list turns to a time: what it had at another goes onto the agenda.
fn turn_to<A: Agenda>(agenda: &mut A, time: &mut u64, front: &mut Front, now: u64)
    requires { IsImmediate front.old.standings.items front.old.drivers.items (vec_capacity front.old.drivers) (A.spare agenda.old) (A.lists agenda.old) }
    ensures time { time.new ≡ now }
    ensures is { IsImmediate front.new.standings.items front.new.drivers.items (vec_capacity front.new.drivers) (A.spare agenda.new) (A.lists agenda.new) }
    ensures lists { lists_of now front.new.standings.items (A.lists agenda.new) ≡ lists_of time.old front.old.standings.items (A.lists agenda.old) }
    ensures spare { A.spare agenda.new - length front.new.drivers.items ≡ A.spare agenda.old - length front.old.drivers.items }
    ensures many { length front.new.standings.items ≡ length front.old.standings.items }
{
    if *time == now {
        return;
    }
    flush(agenda, *time, front);
    *time = now;
}

// Whether two values are the same.
fn same(a: Value, b: Value) -> bool
    ensures { result ≡ is_same a b }
{
    a == b
}

// The earlier of a time and another, if there is one.
fn earlier(time: u64, other: Option<u64>) -> u64
    ensures { result ≡ least_of time other }
{
    match other {
        Some(other) => time.min(other),
        None => time,
    }
}

impl<A: Agenda + Drop> Immediate<A> {
    /// An agenda of so many drivers on which nothing is pending, with a list in front of it.
    ///
    /// `NoMemory` where there is no memory for the list of all drivers.
    pub fn new(alloc: Global, agenda: A, drivers: u32) -> Result<Immediate<A>, NoMemory>
        requires { A.lists agenda ≡ replicate drivers [] }
        ensures { IfOk result (λ immediate. immediate.0 ≡ replicate drivers []) }
    {
        let standings = vec![in alloc; Standing::Nothing; drivers as usize]?;
        let drivers = Vec::with_capacity(alloc, drivers as usize)?;
        Ok(Immediate {
            agenda,
            time: 0,
            front: Front { standings, drivers },
        })
    }
}

impl<A: Agenda> Immediate<A> {
    /// Places `value` at `now`, to take effect in the next round of this time, where it is known that nothing is
    /// pending of `driver`, and answers whether that is known. What is due now was taken before. Takes no memory.
    pub fn place_at_once(&mut self, driver: u32, present: Value, now: u64, value: Value) -> bool
        requires driver { driver < length self.old.0 }
        requires room { 0 < self.old.1 }
        ensures placed { OnTrue result ((list_at self.old.0 driver ≡ []) × (self.new.0 ≡ with_list self.old.0 driver (put [] present now value))) }
        ensures stays { OnFalse result (self.new ≡ self.old) }
        ensures spare { self.old.1 ≤ self.new.1 + 1 }
    {
        if self.time != now {
            return false;
        }
        if !is_nothing(self.front.standings[driver as usize]) {
            return false;
        }
        if !same(present, value) {
            enlist(&mut self.front, driver, value);
        }
        true
    }
}

impl<A: Agenda> Agenda for Immediate<A> {
    ghost lists = { λ a. a.0 };

    ghost spare = { λ a. a.1 };

    fn reserve(&mut self, n: u32) -> Result<(), NoMemory> {
        flush(&mut self.agenda, self.time, &mut self.front);
        self.agenda.reserve(n)
    }

    fn append(&mut self, driver: u32, time: u64, value: Value) {
        settle(&mut self.agenda, self.time, &mut self.front, driver);
        self.agenda.append(driver, time, value);
    }

    fn drop_last(&mut self, driver: u32) {
        settle(&mut self.agenda, self.time, &mut self.front, driver);
        self.agenda.drop_last(driver);
    }

    fn clear(&mut self, driver: u32) {
        settle(&mut self.agenda, self.time, &mut self.front, driver);
        self.agenda.clear(driver);
    }

    fn last(&self, driver: u32) -> Option<(u64, Value)> {
        match self.front.standings[driver as usize] {
            Standing::Nothing => None,
            Standing::Listed(value) => Some((self.time, value)),
            Standing::OnAgenda => self.agenda.last(driver),
        }
    }

    fn take_due(&mut self, now: u64) -> Option<(u32, Value)> {
        turn_to(&mut self.agenda, &mut self.time, &mut self.front, now);
        match unlist(&mut self.front, Standing::Nothing) {
            Some(due) => Some(due),
            None => self.agenda.take_due(now),
        }
    }

    fn least(&mut self) -> Option<u64> {
        let least = self.agenda.least();
        if self.front.drivers.is_empty() {
            return least;
        }
        Some(earlier(self.time, least))
    }
}
