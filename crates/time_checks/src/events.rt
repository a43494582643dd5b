// What happens to a timing check between two snapshots.
ghost use Rattle.std.specs.Prelude.{◌≡◌, ◌<◌, ◌&&◌, true, IfSome, length};
ghost use Rattle.cond_expr.specs.Values.{AreBelow};
ghost use Rattle.time_checks.specs.AdjustedSeen.{adjusted_seen};
ghost use Rattle.time_checks.specs.ChangeSets.{change_in};
ghost use Rattle.time_checks.specs.Events.{is_enabled};
ghost use Rattle.time_checks.specs.Watching.{change_number_at, events_needed, is_happening, watch_by};
ghost use Rattle.time_checks.specs.Within.{IsCheckWithin};

use crate::adjusted::AdjustedCheck;
use crate::change_sets::{ChangeSet, change_number};
use crate::watches::Watch;
use cond_expr::{Bound, Nets};
use sg_circuit::{Event, NetId};
use sg_logic::Value;

/// What happens: the reference event, the data event, and the opposite edge of the reference.
#[derive(Clone, Copy)]
pub struct Events {
    pub refer: bool,
    pub datum: bool,
    pub back: bool,
}

// Nets by their values.
#[derive(Drop)]
struct NetValues<'a> {
    values: &'a [Value],
}

impl Nets for NetValues<'_> {
    ghost values = { λ s. s.values.now };

    fn at(&self, net: u32) -> Value {
        self.values[net as usize]
    }
}

fn enables(condition: &Option<Bound>, values: &[Value]) -> bool
    requires { IfSome condition.now (λ c. AreBelow (length values.now) c) }
    ensures { result ≡ is_enabled condition.now values.now }
{
    match condition {
        Some(bound) => bound.enables(&NetValues { values }),
        None => true,
    }
}

// Whether a change that a terminal looks at is enabled; there is nothing to look up where it is free of conditions.
fn happens(
    changes: &ChangeSet,
    change: u8,
    is_free: bool,
    condition: &Option<Bound>,
    values: &[Value],
) -> bool
    requires change { change < 8 }
    requires within { IfSome condition.now (λ c. AreBelow (length values.now) c) }
    requires free { is_free ≡ true → is_enabled condition.now values.now ≡ true }
    ensures { result ≡ (change_in changes.now change && is_enabled condition.now values.now) }
{
    changes.contains(change) && (is_free || enables(condition, values))
}

fn datum_happens(
    changes: &ChangeSet,
    change: u8,
    is_free: bool,
    datum: &Option<Event>,
    values: &[Value],
) -> bool
    requires change { change < 8 }
    requires within { IfSome datum.now (λ event. IfSome event.condition (λ c. AreBelow (length values.now) c)) }
    requires free { is_free ≡ true → IfSome datum.now (λ event. is_enabled event.condition values.now ≡ true) }
    ensures { result ≡ is_happening changes.now change datum.now values.now }
{
    match datum {
        Some(event) => happens(changes, change, is_free, &event.condition, values),
        None => false,
    }
}

/// The number of a net's change between two snapshots.
pub fn change_at(net: NetId, last: &[Value], values: &[Value]) -> u8
    requires within { net < length values.now }
    requires as_many { length last.now ≡ length values.now }
    ensures number { result ≡ change_number_at last.now values.now net }
    ensures small { result < 8 }
{
    change_number(last[net as usize], values[net as usize])
}

/// What happens to a check.
pub fn events_of(
    check: &AdjustedCheck<'_>,
    watch: &Watch,
    last: &[Value],
    values: &[Value],
) -> Events
    requires watch { watch.now ≡ watch_by (adjusted_seen check.now) }
    requires within { IsCheckWithin (adjusted_seen check.now) (length values.now) }
    requires as_many { length last.now ≡ length values.now }
    ensures { result ≡ events_needed (adjusted_seen check.now) last.now values.now }
{
    let timing = check.timing;
    let free = watch.is_free;
    let refer = change_at(watch.refer, last, values);
    let datum = change_at(watch.datum, last, values);
    Events {
        refer: happens(
            &watch.refer_changes,
            refer,
            free,
            &timing.refer.condition,
            values,
        ),
        datum: datum_happens(&watch.datum_changes, datum, free, &timing.datum, values),
        back: watch.back_changes.contains(refer),
    }
}
