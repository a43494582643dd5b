// The parts of a timing check's text.
ghost use Rattle.std.specs.Prelude.{◌≡◌};
ghost use Rattle.vl_tree.specs.Seen.{view_check};
ghost use Rattle.specify_model.specs.Checks as def;
ghost use Rattle.specify_checks.specs.Parts.{ArePartsOf};

use sg_circuit::CheckKind;
use sg_text::Place;
use vl_tree::{Check, Event, Limit, Name, OneLimitCheck, TwoLimitCheck};

/// The parts of a timing check; its limits are in the order of the text (IEEE 1364-2005, clause 15).
#[derive(Clone, Copy)]
pub struct Parts<'t, 'a> {
    pub place: Place,
    pub kind: CheckKind,
    pub reference: &'t Event<'a>,
    pub data: Option<&'t Event<'a>>,
    pub first: Limit<'a>,
    pub second: Option<Limit<'a>>,
    pub threshold: Option<Limit<'a>>,
    pub notifier: Option<Name<'a>>,
}

fn one_limit_kind(check: OneLimitCheck) -> CheckKind
    ensures { result ≡ def.one_limit_kind check }
{
    match check {
        OneLimitCheck::Setup => CheckKind::Setup,
        OneLimitCheck::Hold => CheckKind::Hold,
        OneLimitCheck::Recovery => CheckKind::Recovery,
        OneLimitCheck::Removal => CheckKind::Removal,
        OneLimitCheck::Skew => CheckKind::Skew,
    }
}

fn two_limit_kind(check: TwoLimitCheck) -> CheckKind
    ensures { result ≡ def.two_limit_kind check }
{
    match check {
        TwoLimitCheck::SetupHold => CheckKind::Setuphold,
        TwoLimitCheck::RecRem => CheckKind::Recrem,
    }
}

/// The parts of a check. Takes no memory.
pub fn parts_of<'t, 'a>(check: &'t Check<'a>) -> Parts<'t, 'a>
    ensures { ArePartsOf (view_check check.now) result }
{
    match check {
        Check::OneLimit {
            place,
            check,
            reference,
            data,
            limit,
            notifier,
        } => Parts {
            place: *place,
            kind: one_limit_kind(*check),
            reference,
            data: Some(data),
            first: *limit,
            second: None,
            threshold: None,
            notifier: *notifier,
        },
        Check::TwoLimits {
            place,
            check,
            reference,
            data,
            first,
            second,
            notifier,
            ..
        } => Parts {
            place: *place,
            kind: two_limit_kind(*check),
            reference,
            data: Some(data),
            first: *first,
            second: Some(*second),
            threshold: None,
            notifier: *notifier,
        },
        Check::Width {
            place,
            reference,
            limit,
            threshold,
            notifier,
        } => Parts {
            place: *place,
            kind: CheckKind::Width,
            reference,
            data: None,
            first: *limit,
            second: None,
            threshold: *threshold,
            notifier: *notifier,
        },
        Check::Period {
            place,
            reference,
            limit,
            notifier,
        } => Parts {
            place: *place,
            kind: CheckKind::Period,
            reference,
            data: None,
            first: *limit,
            second: None,
            threshold: None,
            notifier: *notifier,
        },
    }
}
