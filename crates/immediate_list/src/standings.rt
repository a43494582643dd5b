// Where the transitions of drivers stand, and the list of the drivers whose transition is listed.
ghost use Rattle.std.specs.Prelude.{◌≡◌, ◌<◌, ◌≤◌, [], ◌∷◌, ◌++◌, IfNone, IfSome, false, length, slice_set};
ghost use Rattle.std.specs.Vec.{vec_capacity};
ghost use Rattle.immediate_list.specs.declared.standings.Standing.TheVariants.{Listed};
ghost use Rattle.immediate_list.specs.Standings.{standing_at, is_listed as listed, is_nothing as nothing, AreListed, IsUnlisted};

use sg_logic::Value;

/// Where a driver's transitions stand: it has none, it takes this value at the time of the list, or they stand on the
/// agenda.
#[derive(Clone, Copy)]
pub enum Standing {
    Nothing,
    Listed(Value),
    OnAgenda,
}

/// Whether the driver is known to have no transition.
pub fn is_nothing(standing: Standing) -> bool
    ensures { result ≡ nothing standing }
{
    matches!(standing, Standing::Nothing)
}

/// Whether the driver is listed.
pub fn is_listed(standing: Standing) -> bool
    ensures { result ≡ listed standing }
{
    matches!(standing, Standing::Listed(_))
}

/// Where the transitions of each driver stand, and which drivers are listed.
#[derive(Drop)]
pub struct Front {
    pub standings: Vec<Standing>,
    // with room for all
    pub drivers: Vec<u32>,
}

// Adds a driver, in room that was made before.
fn add(drivers: &mut Vec<u32>, driver: u32)
    requires { length drivers.old.items < vec_capacity drivers.old }
    ensures items { drivers.new.items ≡ drivers.old.items ++ driver ∷ [] }
    ensures capacity { vec_capacity drivers.old ≤ vec_capacity drivers.new }
{
    let pushed = drivers.push(driver);
    prove!(pushed.is_ok());
}

/// Lists a driver that isn't listed, in room that was made before.
pub fn enlist(front: &mut Front, driver: u32, value: Value)
    requires driver { driver < length front.old.standings.items }
    requires free { listed (standing_at front.old.standings.items driver) ≡ false }
    requires room { length front.old.standings.items ≤ vec_capacity front.old.drivers }
    requires listed { AreListed front.old.standings.items front.old.drivers.items }
    ensures standings { front.new.standings.items ≡ slice_set front.old.standings.items driver (Listed value) }
    ensures listed { AreListed front.new.standings.items front.new.drivers.items }
    ensures items { front.new.drivers.items ≡ front.old.drivers.items ++ driver ∷ [] }
    ensures capacity { vec_capacity front.old.drivers ≤ vec_capacity front.new.drivers }
{
    front.standings[driver as usize] = Standing::Listed(value);
    add(&mut front.drivers, driver);
}

/// Takes the driver that was listed last, whose transitions then stand elsewhere.
pub fn unlist(front: &mut Front, after: Standing) -> Option<(u32, Value)>
    requires after { listed after ≡ false }
    requires listed { AreListed front.old.standings.items front.old.drivers.items }
    ensures some { IfSome result (λ answer. IsUnlisted front.old.standings.items front.new.standings.items front.old.drivers.items front.new.drivers.items after answer) }
    ensures none { IfNone result ((front.old.drivers.items ≡ []) × (front.new.drivers.items ≡ []) × (front.new.standings.items ≡ front.old.standings.items)) }
    ensures listed { AreListed front.new.standings.items front.new.drivers.items }
    ensures capacity { vec_capacity front.old.drivers ≤ vec_capacity front.new.drivers }
{
    let driver = front.drivers.pop()?;
    let Standing::Listed(value) = front.standings[driver as usize] else {
        unreachable!()
    };
    front.standings[driver as usize] = after;
    Some((driver, value))
}
