// The events of a run, and for each net where its events are.
ghost use Rattle.std.specs.Prelude.{◌≡◌, ◌<◌, ◌≤◌, ◌^◌, All, IfOk, filter, length, take};
ghost use Rattle.std.specs.List.Sorted.{IsPartitionedBy};
ghost use Rattle.why_causes.specs.Traces.{holds_before as holds_before_time, pins_of};

use crate::changes::Change;
use crate::events::Event;
use sg_circuit::{FanOut, NetId, Pin};
use sg_logic::Value;
use sg_text::NoMemory;
use std::alloc::Global;
use std::marker::Model;

// The net of each event, and its number.
fn pins_of_events(alloc: Global, events: &[Event]) -> Result<Vec<Pin>, NoMemory>
    requires { length events.now < 2 ^ 32 }
    ensures { IfOk result (λ pins. pins.items ≡ pins_of events.now) }
{
    let mut pins = Vec::new(alloc);
    for (number, event) in events.iter().enumerate() {
        pins.push(Pin {
            net: event.net,
            element: number as u32,
        })?;
    }
    Ok(pins)
}

// Whether the event of a number comes before a time.
fn holds_before(events: &[Event], number: u32, time: u64) -> bool
    ensures { result ≡ holds_before_time events.now time number }
{
    match events.get(number as usize) {
        Some(event) => event.time < time,
        None => false,
    }
}

// How many of a net's events come before a time.
fn count_before(events: &[Event], row: &[u32], time: u64) -> usize
    requires { IsPartitionedBy (holds_before_time events.now time) row.now }
    ensures within { result ≤ length row.now }
    ensures count { take result row.now ≡ filter (holds_before_time events.now time) row.now }
{
    row.partition_point(
        |number: &u32| -> bool
            ensures { result ≡ holds_before_time events.entry.now time number.now }
        { holds_before(events, *number, time) },
    )
}

/// A run as its nets show it: values before time 0, and each change after that.
#[derive(Drop)]
pub struct Trace<'a> {
    first: &'a [Value],
    events: &'a [Event],
    // the numbers of each net's events
    rows: FanOut,
}

impl<'a> Model for Trace<'a> {
    ghost use Rattle.why_causes.specs.Waveform.{Waveform};
    ghost use Rattle.why_causes.specs.Traces.{IsTrace};

    ghost Value = { Waveform };

    ghost view = { λ t. record { first = t.first.now; events = t.events.now } };

    ghost invariant = { λ t. IsTrace t.first.now t.events.now t.rows };
}

impl<'a> Trace<'a> {
    ghost use Rattle.std.specs.Prelude.{◌≡◌, ◌<◌, ◌≤◌, ◌^◌, All, IfOk, length};
    ghost use Rattle.std.specs.List.{AllPairs};
    ghost use Rattle.why_causes.specs.Waveform.{event_at, last_before as last_event_before, value_before as value_of_net_before};
    ghost use Rattle.why_causes.specs.Causes.{change_of as change_of_event};

    /// The values of nets before time 0, and their events, by times that don't fall. Takes time, and memory of some 20 bytes an
    /// event, in proportion to both.
    ///
    /// `NoMemory` where there is no memory for it, or where there are 2^32 events.
    pub fn new(
        alloc: Global,
        first: &'a [Value],
        events: &'a [Event],
    ) -> Result<Trace<'a>, NoMemory>
        requires few { length first.now < 2 ^ 32 }
        requires nets { All (λ e. e.net < length first.now) events.now }
        requires times { All (λ e. e.time < 2 ^ 60) events.now }
        requires rise { AllPairs (λ d e. d.time ≤ e.time) events.now }
        ensures { IfOk result (λ trace. trace ≡ record { first = first.now; events = events.now }) }
    {
        if events.len() > u32::MAX as usize {
            return Err(NoMemory);
        }
        let pins = pins_of_events(alloc, events)?;
        let rows = FanOut::of_pins(alloc, first.len() as u32, &pins)?;
        Ok(Trace {
            first,
            events,
            rows,
        })
    }

    /// How many events there are.
    pub fn events(&self) -> u32
        ensures { result ≡ length self.now.events }
    {
        self.events.len() as u32
    }

    /// An event.
    pub fn event(&self, number: u32) -> Event
        requires { number < length self.now.events }
        ensures event { result ≡ event_at self.now number }
        ensures net { result.net < length self.now.first }
        ensures time { result.time < 2 ^ 60 }
    {
        self.events[number as usize]
    }

    /// The last event of a net before a time, with its number. Takes time as the logarithm of the net's events.
    pub fn last_before(&self, net: NetId, time: u64) -> Option<(u32, Event)>
        requires { net < length self.now.first }
        ensures { result ≡ last_event_before self.now net time }
    {
        let row = self.rows.of(net);
        let count = count_before(self.events, row, time);
        if count == 0 {
            return None;
        }
        let number = row[count - 1];
        Some((number, self.events[number as usize]))
    }

    /// The value of a net before a time.
    pub fn value_before(&self, net: NetId, time: u64) -> Value
        requires { net < length self.now.first }
        ensures { result ≡ value_of_net_before self.now net time }
    {
        match self.last_before(net, time) {
            Some((_, event)) => event.value,
            None => self.first[net as usize],
        }
    }

    /// The change that an event makes.
    pub(crate) fn change_of(&self, event: Event) -> Change
        requires { event.net < length self.now.first }
        ensures { result ≡ change_of_event self.now event }
    {
        Change {
            time: event.time,
            from: self.value_before(event.net, event.time),
            to: event.value,
        }
    }
}
