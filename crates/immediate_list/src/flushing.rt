// How what is listed gets onto the agenda.
ghost use Rattle.std.specs.Prelude.{◌≡◌, ℕ, ◌-◌, ◌<◌, [], false, length};
ghost use Rattle.std.specs.Vec.{vec_capacity};
ghost use Rattle.immediate_list.specs.declared.standings.Standing.TheVariants.{OnAgenda};
ghost use Rattle.immediate_list.specs.Standings.{standing_at, is_listed as listed, lists_of, IsImmediate};

use crate::standings::{Front, Standing, is_listed, unlist};
use pulse_list::Agenda;

/// What is listed is put onto the agenda, in the room that it has for it.
pub fn flush<A: Agenda>(agenda: &mut A, time: u64, front: &mut Front)
    requires { IsImmediate front.old.standings.items front.old.drivers.items (vec_capacity front.old.drivers) (A.spare agenda.old) (A.lists agenda.old) }
    ensures is { IsImmediate front.new.standings.items front.new.drivers.items (vec_capacity front.new.drivers) (A.spare agenda.new) (A.lists agenda.new) }
    ensures lists { (other : ℕ) → lists_of other front.new.standings.items (A.lists agenda.new) ≡ lists_of time front.old.standings.items (A.lists agenda.old) }
    ensures spare { A.spare agenda.new ≡ A.spare agenda.old - length front.old.drivers.items }
    ensures drivers { front.new.drivers.items ≡ [] }
    ensures many { length front.new.standings.items ≡ length front.old.standings.items }
{
    while let Some((driver, value)) = unlist(front, Standing::OnAgenda) {
        agenda.append(driver, time, value);
    }
}

// So it is where a driver is listed.
fn release<A: Agenda>(agenda: &mut A, time: u64, front: &mut Front, driver: u32)
    requires driver { driver < length front.old.standings.items }
    requires is { IsImmediate front.old.standings.items front.old.drivers.items (vec_capacity front.old.drivers) (A.spare agenda.old) (A.lists agenda.old) }
    ensures is { IsImmediate front.new.standings.items front.new.drivers.items (vec_capacity front.new.drivers) (A.spare agenda.new) (A.lists agenda.new) }
    ensures lists { lists_of time front.new.standings.items (A.lists agenda.new) ≡ lists_of time front.old.standings.items (A.lists agenda.old) }
    ensures spare { A.spare agenda.new - length front.new.drivers.items ≡ A.spare agenda.old - length front.old.drivers.items }
    ensures free { listed (standing_at front.new.standings.items driver) ≡ false }
    ensures many { length front.new.standings.items ≡ length front.old.standings.items }
{
    if is_listed(front.standings[driver as usize]) {
        flush(agenda, time, front);
    }
}

/// From here on a driver's transitions stand on the agenda.
pub fn settle<A: Agenda>(agenda: &mut A, time: u64, front: &mut Front, driver: u32)
    requires driver { driver < length front.old.standings.items }
    requires is { IsImmediate front.old.standings.items front.old.drivers.items (vec_capacity front.old.drivers) (A.spare agenda.old) (A.lists agenda.old) }
    ensures is { IsImmediate front.new.standings.items front.new.drivers.items (vec_capacity front.new.drivers) (A.spare agenda.new) (A.lists agenda.new) }
    ensures lists { lists_of time front.new.standings.items (A.lists agenda.new) ≡ lists_of time front.old.standings.items (A.lists agenda.old) }
    ensures spare { A.spare agenda.new - length front.new.drivers.items ≡ A.spare agenda.old - length front.old.drivers.items }
    ensures settled { standing_at front.new.standings.items driver ≡ OnAgenda }
    ensures many { length front.new.standings.items ≡ length front.old.standings.items }
{
    release(agenda, time, front, driver);
    front.standings[driver as usize] = Standing::OnAgenda;
}
