// Lines taken from the front of a text.
ghost use Rattle.std.specs.Prelude.{◌≡◌, ℕ, List, Option, ◌++◌, ◌∷◌, MatchOption};
ghost use Rattle.sg_model.specs.Machine.{Stamp};
ghost use Rattle.sim_rounds.specs.MomentsSeen.{change_seen, pending_seen};
ghost use Rattle.sim_save.specs.Lines.{change_words, check_line, end_line, net_line, number, pending_line, udp_line};
ghost use Rattle.sim_save.specs.Steps.{AreCounts, IsChange, IsCheck, IsCounters, IsHead, IsLatest, IsNet, IsPending, IsTransition, IsUdp, counters_line, counts_line};
ghost use Rattle.sim_save.specs.Taking.{AreSizes, Is32, Is64, NoLine, NotBehind, counts_seen};

use crate::taking::{take_count, take_event, take_front, take_letter, take_number, take_power};
use sg_logic::Value;
use sim_rounds::{LastChange, Pending};
use time_checks::Latest;

/// How many things of each kind a circuit has.
#[derive(Clone, Copy, Debug, PartialEq, Eq)]
pub struct Sizes {
    pub nets: u32,
    pub elements: u32,
    pub udps: u32,
    pub checks: u32,
}

/// The numbers of a head.
#[derive(Clone, Copy, Debug, PartialEq, Eq)]
pub struct Head {
    pub time: u64,
    pub tick: i8,
    pub sizes: Sizes,
}

// The end of a head.
fn take_sizes(text: &[u8]) -> Option<(Sizes, &[u8])>
    ensures { MatchOption result
        ((n e u k : ℕ) (more : List ℕ) → Is32 n → Is32 e → Is32 u → Is32 k → text.now ≡ number n ++ (number e ++ (number u ++ (number k ++ 10 ∷ more))) → ⊥)
        (λ r. AreSizes r.0 × (text.now ≡ number r.0.nets ++ (number r.0.elements ++ (number r.0.udps ++ (number r.0.checks ++ 10 ∷ r.1.now))))) }
{
    let (nets, at_elements) = take_count(text)?;
    let (elements, at_udps) = take_count(at_elements)?;
    let (udps, at_checks) = take_count(at_udps)?;
    let (checks, at_end) = take_count(at_checks)?;
    let behind = take_front(at_end, b"\n")?;
    let sizes = Sizes {
        nets,
        elements,
        udps,
        checks,
    };
    Some((sizes, behind))
}

/// A head.
pub fn take_head(text: &[u8]) -> Option<(Head, &[u8])>
    ensures { MatchOption result (NoLine IsHead text.now) (λ r. AreCounts (counts_seen r.0) × (text.now ≡ counts_line (counts_seen r.0) ++ r.1.now)) }
{
    let at_time = take_front(text, b"save")?;
    let (time, at_tick) = take_number(at_time)?;
    let (tick, at_sizes) = take_power(at_tick)?;
    let (sizes, behind) = take_sizes(at_sizes)?;
    Some((Head { time, tick, sizes }, behind))
}

// The rest of a net's line, behind its value.
fn take_change(text: &[u8], after: Value) -> Option<(Option<LastChange>, &[u8])>
    ensures { MatchOption result
        ((s : Option Stamp) (more : List ℕ) → IsChange after s → text.now ≡ change_words s ++ 10 ∷ more → ⊥)
        (λ r. IsChange after (change_seen r.0) × (text.now ≡ change_words (change_seen r.0) ++ 10 ∷ r.1.now)) }
{
    if let Some(behind) = take_front(text, b"\n") {
        return Some((None, behind));
    }
    let (time, at_before) = take_number(text)?;
    let (before, at_end) = take_letter(at_before)?;
    let behind = take_front(at_end, b"\n")?;
    let change = LastChange {
        time,
        before,
        after,
    };
    Some((Some(change), behind))
}

/// The line of a net.
pub fn take_net(text: &[u8]) -> Option<(Value, Option<LastChange>, &[u8])>
    ensures { MatchOption result (NoLine IsNet text.now) (λ r. IsChange r.0 (change_seen r.1) × (text.now ≡ net_line r.0 (change_seen r.1) ++ r.2.now)) }
{
    let at_value = take_front(text, b"n")?;
    let (value, at_change) = take_letter(at_value)?;
    let (change, behind) = take_change(at_change, value)?;
    Some((value, change, behind))
}

/// The line of a pending transition.
pub fn take_pending(text: &[u8]) -> Option<(Pending, &[u8])>
    ensures { MatchOption result (NoLine IsTransition text.now) (λ r. IsPending (pending_seen r.0) × (text.now ≡ pending_line (pending_seen r.0) ++ r.1.now)) }
{
    let at_driver = take_front(text, b"p")?;
    let (driver, at_time) = take_count(at_driver)?;
    let (time, at_value) = take_number(at_time)?;
    let (value, at_end) = take_letter(at_value)?;
    let behind = take_front(at_end, b"\n")?;
    let pending = Pending {
        driver,
        time,
        value,
    };
    Some((pending, behind))
}

/// The line of a primitive's state.
pub fn take_udp(text: &[u8]) -> Option<(Value, &[u8])>
    ensures { MatchOption result (NoLine IsUdp text.now) (λ r. text.now ≡ udp_line r.0 ++ r.1.now) }
{
    let at_state = take_front(text, b"u")?;
    let (state, at_end) = take_letter(at_state)?;
    let behind = take_front(at_end, b"\n")?;
    Some((state, behind))
}

/// The line of a timing check.
pub fn take_check(text: &[u8]) -> Option<(Latest, &[u8])>
    ensures { MatchOption result (NoLine IsCheck text.now) (λ r. IsLatest r.0 × (text.now ≡ check_line r.0 ++ r.1.now)) }
{
    let at_refer = take_front(text, b"c")?;
    let (refer, at_datum) = take_event(at_refer)?;
    let (datum, at_end) = take_event(at_datum)?;
    let behind = take_front(at_end, b"\n")?;
    Some((Latest { refer, datum }, behind))
}

/// The line of the last time and the number of evaluations.
pub fn take_counters(text: &[u8]) -> Option<(u64, u64, &[u8])>
    ensures { MatchOption result (NoLine IsCounters text.now) (λ r. Is64 r.0 × Is64 r.1 × (text.now ≡ counters_line r.0 r.1 ++ r.2.now)) }
{
    let at_last = take_front(text, b"l")?;
    let (last, at_evaluations) = take_number(at_last)?;
    let (evaluations, at_end) = take_number(at_evaluations)?;
    let behind = take_front(at_end, b"\n")?;
    Some((last, evaluations, behind))
}

/// The last line.
pub fn take_end(text: &[u8]) -> Option<&[u8]>
    ensures { MatchOption result (NotBehind end_line text.now) (λ rest. text.now ≡ end_line ++ rest.now) }
{
    take_front(text, b"end\n")
}
