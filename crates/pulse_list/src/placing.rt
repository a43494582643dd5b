// The two rules by which a value is placed among the transitions that its driver has pending.
ghost use Rattle.std.specs.Prelude.{◌≡◌, ◌+◌, ◌<◌, ◌≤◌, length, reverse, IsSomeAnd};
ghost use Rattle.std.specs.Bool.{OnTrue, OnFalse};
ghost use Rattle.sg_model.specs.Pending.{pending_after, inertial, put, error_pulse, rest_of, last_of, last_value, IsAbove};
ghost use Rattle.sg_model.specs.Agenda.{list_at, with_list, NoneBelow};
ghost use Rattle.pulse_list.specs.Seen.{style_seen};

use crate::agenda::Agenda;
use sg_delay::PulseStyle;
use sg_logic::Value;

/// The value that the driver's net has in the end: that of its latest transition, or else `present`, its value now.
pub fn end_value<A: Agenda>(agenda: &A, driver: u32, present: Value) -> Value
    requires { driver < length (A.lists agenda.now) }
    ensures { result ≡ last_value (list_at (A.lists agenda.now) driver) present }
{
    match agenda.last(driver) {
        Some((_, value)) => value,
        None => present,
    }
}

// Whether the driver's list ends with the value.
fn ends_with<A: Agenda>(agenda: &A, driver: u32, value: Value) -> bool
    requires { driver < length (A.lists agenda.now) }
    ensures yes { OnTrue result (IsSomeAnd (last_of (list_at (A.lists agenda.now) driver)) (λ p. p.1 ≡ value)) }
    ensures no { OnFalse result (¬ IsSomeAnd (last_of (list_at (A.lists agenda.now) driver)) (λ p. p.1 ≡ value)) }
{
    match agenda.last(driver) {
        Some((_, last)) => last == value,
        None => false,
    }
}

// Appends a transition, where its value isn't the one that the list ends with.
fn put_last<A: Agenda>(agenda: &mut A, driver: u32, present: Value, time: u64, value: Value)
    requires driver { driver < length (A.lists agenda.old) }
    requires room { 0 < A.spare agenda.old }
    requires later { IsAbove time (reverse (list_at (A.lists agenda.old) driver)) }
    ensures lists { A.lists agenda.new ≡ with_list (A.lists agenda.old) driver
        (reverse (put (reverse (list_at (A.lists agenda.old) driver)) present time value)) }
    ensures spare { A.spare agenda.old ≤ A.spare agenda.new + 1 }
{
    if end_value(agenda, driver, present) != value {
        agenda.append(driver, time, value);
    }
}

/// Places `value` at `time` among `driver`'s transitions by the rule of inertial delay (IEEE 1364-2005, 7.14).
///
/// Where the latest transition has this value, nothing changes. Else all are dropped, and `value` is appended where
/// it isn't `present`, the driver's value now.
///
/// `time` is `now` or later, and room for two transitions is reserved. Takes no memory.
pub fn place_inertial<A: Agenda>(
    agenda: &mut A,
    driver: u32,
    present: Value,
    now: u64,
    value: Value,
    time: u64,
)
    requires driver { driver < length (A.lists agenda.old) }
    requires room { 2 ≤ A.spare agenda.old }
    requires later { now ≤ time }
    ensures lists { A.lists agenda.new ≡ with_list (A.lists agenda.old) driver
        (inertial (list_at (A.lists agenda.old) driver) present value time) }
    ensures spare { A.spare agenda.old ≤ A.spare agenda.new + 2 }
{
    if ends_with(agenda, driver, value) {
        return;
    }
    agenda.clear(driver);
    put_last(agenda, driver, present, time, value);
}

// An error pulse, whose leading transition is the list's latest, at `last_time`.
fn place_error<A: Agenda>(
    agenda: &mut A,
    driver: u32,
    present: Value,
    now: u64,
    value: Value,
    time: u64,
    last_time: u64,
    style: PulseStyle,
)
    requires driver { driver < length (A.lists agenda.old) }
    requires room { 2 ≤ A.spare agenda.old }
    requires some { 0 < length (list_at (A.lists agenda.old) driver) }
    requires earlier { IsAbove last_time (rest_of (reverse (list_at (A.lists agenda.old) driver))) }
    requires from_now { now ≤ last_time }
    requires later { last_time < time }
    ensures lists { A.lists agenda.new ≡ with_list (A.lists agenda.old) driver
        (reverse (error_pulse (style_seen style) (rest_of (reverse (list_at (A.lists agenda.old) driver)))
        last_time present now value time)) }
    ensures spare { A.spare agenda.old ≤ A.spare agenda.new + 2 }
{
    match style {
        PulseStyle::OnEvent => {
            agenda.drop_last(driver);
            put_last(agenda, driver, present, last_time, Value::X);
        }
        PulseStyle::OnDetect => {
            agenda.clear(driver);
            put_last(agenda, driver, present, now, Value::X);
        }
    }
    put_last(agenda, driver, present, time, value);
}

/// Places `value` at `time` among `driver`'s transitions by the rule of pulses (IEEE 1364-2005, 14.6).
///
/// The latest transition decides. Where it has this value, nothing changes. Where `time` isn't after it, or is by
/// less than `reject` ticks, it is dropped and the one before it decides. Where `time` is after it by at least
/// `error` ticks, `value` is appended. Else the two make an error pulse (14.6.4.1): by `OnEvent` x takes its place,
/// by `OnDetect` all are dropped and x stands at `now`; then `value` is appended. Where none is left, `value` is
/// appended. Nothing is put where it equals what stands there: the latest value, or else `present`, the driver's
/// value now.
///
/// No transition is below `now`, `time` is `now` or later, `reject` is at most `error`, and room for two transitions
/// is reserved. Takes no memory.
pub fn place<A: Agenda>(
    agenda: &mut A,
    driver: u32,
    present: Value,
    now: u64,
    value: Value,
    time: u64,
    reject: u64,
    error: u64,
    style: PulseStyle,
)
    requires driver { driver < length (A.lists agenda.old) }
    requires room { 2 ≤ A.spare agenda.old }
    requires later { now ≤ time }
    requires from_now { NoneBelow now (reverse (list_at (A.lists agenda.old) driver)) }
    requires limits { reject ≤ error }
    ensures lists { A.lists agenda.new ≡ with_list (A.lists agenda.old) driver
        (pending_after (list_at (A.lists agenda.old) driver) present now value time reject error (style_seen style)) }
    ensures spare { A.spare agenda.old ≤ A.spare agenda.new + 2 }
{
    while let Some((last_time, last)) = agenda.last(driver) {
        if last == value {
            return;
        }
        if last_time < time {
            let width = time - last_time;
            if error <= width {
                agenda.append(driver, time, value);
                return;
            }
            if reject <= width {
                place_error(agenda, driver, present, now, value, time, last_time, style);
                return;
            }
        }
        agenda.drop_last(driver);
    }
    put_last(agenda, driver, present, time, value);
}
