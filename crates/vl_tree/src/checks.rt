// Timing checks of specify blocks.
use crate::{EdgeWord, Limit, Name, OneLimitCheck, Term, TwoLimitCheck, Word};
use sg_text::Place;

/// `[ edge ] term [ "&&&" condition ]`
#[derive(Debug, Drop)]
pub struct Event<'a> {
    pub place: Place,
    pub edge: Option<EdgeWord>,
    pub term: Term<'a>,
    pub condition: Option<Vec<Word<'a>>>,
}

/// A timing check. Arguments that are empty or missing at its end leave no trace.
#[derive(Debug, Drop)]
pub enum Check<'a> {
    /// `name "(" reference "," data "," limit [ "," [ notifier ] ] ")"`. In `$setup` the data stands before the reference.
    OneLimit {
        place: Place,
        check: OneLimitCheck,
        reference: Event<'a>,
        data: Event<'a>,
        limit: Limit<'a>,
        notifier: Option<Name<'a>>,
    },
    /// `name "(" reference "," data "," limit "," limit [ "," [ notifier ] [ "," [ "," [ "," [ delayed-reference ] [ "," [ delayed-data ] ] ] ] ] ] ")"`:
    /// the two arguments behind the notifier are empty.
    TwoLimits {
        place: Place,
        check: TwoLimitCheck,
        reference: Event<'a>,
        data: Event<'a>,
        first: Limit<'a>,
        second: Limit<'a>,
        notifier: Option<Name<'a>>,
        delayed_reference: Option<Name<'a>>,
        delayed_data: Option<Name<'a>>,
    },
    /// `"$width" "(" reference "," limit [ "," [ threshold ] [ "," [ notifier ] ] ] ")"`
    Width {
        place: Place,
        reference: Event<'a>,
        limit: Limit<'a>,
        threshold: Option<Limit<'a>>,
        notifier: Option<Name<'a>>,
    },
    /// `"$period" "(" reference "," limit [ "," [ notifier ] ] ")"`
    Period {
        place: Place,
        reference: Event<'a>,
        limit: Limit<'a>,
        notifier: Option<Name<'a>>,
    },
}
