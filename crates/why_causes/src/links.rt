// What is found of a change: its cause, and the chain of causes.
ghost use Rattle.std.specs.Prelude.{◌≡◌};
ghost use Rattle.why_causes.specs.Causes.{found as found_by};

use crate::changes::{Candidate, Change};

/// By which rule an event is the cause of a change.
#[derive(Clone, Copy, Debug, PartialEq, Eq)]
pub enum Rule {
    /// Both went to x, and of the inputs that are x this one became so first.
    Unknown,
    /// It lies as long before the change as a specify path from its net takes.
    Path,
    /// Of the inputs of a sequential primitive that changed last, taken in order, it was the last that changed the state.
    Step,
    /// It is the latest that lies so long before the change as the element takes.
    Latest,
}

/// The cause of a change: an event of an input of the element that drives the net.
#[derive(Clone, Copy, Debug, PartialEq, Eq)]
pub struct Link {
    /// Its number among the events.
    pub event: u32,
    pub element: u32,
    /// The input's place among those of the element; by `Rule::Path` the path's place among the element's paths.
    pub input: usize,
    pub rule: Rule,
    /// So many ticks before the change.
    pub delay: u64,
}

/// What the cause of a change is.
#[derive(Clone, Copy, Debug, PartialEq, Eq)]
pub enum Cause {
    /// None: no element drives the net, or no event of an input comes into question.
    Nothing,
    /// An input that was x from the start.
    NeverSet { element: u32, input: usize },
    Linked(Link),
}

/// An event and its causes.
#[derive(Debug, Drop)]
pub struct Chain {
    /// The cause of the event, the cause of this cause, and so on.
    pub links: Vec<Link>,
    /// The cause of the last of them: no event, or one that stands in the chain already.
    pub end: Cause,
}

/// What a rule found for a change of an element's output.
pub(crate) fn found(element: u32, change: Change, rule: Rule, candidate: Option<Candidate>) -> Cause
    ensures { result ≡ found_by element change rule candidate }
{
    match candidate {
        Some(candidate) => Cause::Linked(Link {
            event: candidate.number,
            element,
            input: candidate.input,
            rule,
            delay: change.time.saturating_sub(candidate.event.time),
        }),
        None => Cause::Nothing,
    }
}
