// Specparams of pulse limits.
ghost use Rattle.std.specs.Prelude.{◌≡◌, ◌<◌, List, true, false, length, IfOk, IfSome, IfNone, find};
ghost use Rattle.std.specs.Option.{OnSome, option_map};
ghost use Rattle.specify_model.specs.Faults.{are_bad_limits};
ghost use Rattle.specify_model.specs.PulseLimits as limits;
ghost use Rattle.elab_model.specs.Names.{Variable};
ghost use Rattle.specify_values.specs.PortNames.{AreMarks, AreNames};
ghost use Rattle.specify_values.specs.Seen.{ends_seen, is_divided, view_pulse, measured, widths_seen};

use crate::items::Pulse;
use crate::measures::Measure;
use crate::port_names::{Marks, PortNames, marks_of};
use crate::ticks::ticks;
use sg_delay::Widths;
use sg_text::NoMemory;
use std::alloc::Global;

// How many bytes PATHPULSE$ has.
const FRONT: usize = 10;

/// What a name says behind PATHPULSE$.
pub fn ends_text<'a>(pulse: Pulse<'a>) -> &'a [u8]
    ensures { result.now ≡ limits.ends_text (view_pulse pulse.entry) }
{
    let text = pulse.name.text;
    match text.get(FRONT..) {
        Some(ends) => ends,
        None => &[],
    }
}

// Whether a $ stands at a place of a text, with a port at either side.
fn divides(text: &[u8], marks: &Marks, at: usize) -> bool
    requires at { at < length text.now }
    requires before { length marks.now.before.items ≡ length text.now }
    requires behind { length marks.now.behind.items ≡ length text.now }
    ensures { (vs : List Variable) → AreMarks vs text.now marks.now.before.items marks.now.behind.items → result ≡ is_divided vs text.now at }
{
    text[at] == b'$' && marks.before[at] && marks.behind[text.len() - 1 - at]
}

// What stands before and behind the first $ that has a port at either side.
fn divided<'a>(text: &'a [u8], marks: &Marks) -> Option<(&'a [u8], &'a [u8])>
    requires before { length marks.now.before.items ≡ length text.now }
    requires behind { length marks.now.behind.items ≡ length text.now }
    ensures { (vs : List Variable) → AreMarks vs text.now marks.now.before.items marks.now.behind.items → option_map ends_seen result ≡ find (limits.are_ports vs) (limits.cuts text.now) }
{
    let mut at: usize = 0;
    while at < text.len() {
        if divides(text, marks, at) {
            return Some((&text[..at], &text[at + 1..]));
        }
        at += 1;
    }
    None
}

/// The ports that a text says: what stands before and behind the first $ that has a port at either side. Takes memory in proportion to the text.
pub fn named_ends<'a>(
    alloc: Global,
    names: &PortNames,
    text: &'a [u8],
) -> Result<Option<(&'a [u8], &'a [u8])>, NoMemory>
    ensures { IfOk result (λ ends. (vs : List Variable) → AreNames (limits.is_port vs) names.now → option_map ends_seen ends ≡ find (limits.are_ports vs) (limits.cuts text.now)) }
{
    let marks = marks_of(alloc, names, text)?;
    Ok(divided(text, &marks))
}

/// The limits in ticks, reject and error; None where one is 2^60 or more, or reject is above error.
pub fn widths_of(by: Measure, pulse: Pulse) -> Option<Widths>
    ensures widths { IfSome result (λ w. widths_seen w ≡ limits.limit_ticks (measured by) (view_pulse pulse.entry)) }
    ensures sound { OnSome result (are_bad_limits (limits.limit_ticks (measured by) (view_pulse pulse.entry)) ≡ false) }
    ensures bad { IfNone result (are_bad_limits (limits.limit_ticks (measured by) (view_pulse pulse.entry)) ≡ true) }
{
    let reject = ticks(by, &pulse.reject)?;
    let error = match &pulse.error {
        Some(error) => ticks(by, error)?,
        None => reject,
    };
    if reject > error {
        return None;
    }
    Some(Widths { reject, error })
}
