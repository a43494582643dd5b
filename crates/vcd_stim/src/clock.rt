// A time that a dump says, behind the one before.
ghost use Rattle.std.specs.Prelude.{◌≡◌, ◌<◌, ◌^◌, [], true, false, MatchOption, MatchResult, length, nat_lt};
ghost use Rattle.sg_time.specs.Spelling.{number_from};
ghost use Rattle.vcd_model.specs.Faults as def;
ghost use Rattle.vcd_model.specs.Values.{ticks};
ghost use Rattle.vcd_stim.specs.Meant.{scale_seen, IsMoment, RefusesOneOf};

use crate::faults::fault;
use crate::times::{Scale, number_of, ticks_of, zeros};
use sg_text::Refused;
use vcd_model::VcdKind;

/// A time: its number in the dump's units, and its ticks.
#[derive(Clone, Copy, Debug)]
pub struct Moment {
    pub number: u128,
    pub ticks: u64,
}

// The most digits of a time, leading zeros aside.
const MOST_DIGITS: usize = 19;

fn has_many_digits(digits: &[u8]) -> bool
    ensures { result ≡ def.many_digits digits.now }
{
    digits.len() - zeros(digits) > MOST_DIGITS
}

// The number of not too many digits.
fn few_digits(digits: &[u8]) -> Option<u128>
    ensures { MatchOption result (def.many_digits digits.now ≡ true) (λ n. (def.many_digits digits.now ≡ false) × (n ≡ number_from 0 digits.now) × (n < 2 ^ 68)) }
{
    if has_many_digits(digits) {
        return None;
    }
    number_of(digits)
}

/// The time that some digits at a byte say.
pub fn moment_of(
    scale: Scale,
    byte: usize,
    before: u128,
    digits: &[u8],
) -> Result<Moment, Refused<VcdKind>>
    ensures { MatchResult result (λ m. IsMoment (scale_seen scale) (number_from 0 digits.now) m × (def.time_faults (scale_seen scale) byte before digits.now ≡ []))
        (RefusesOneOf (def.time_faults (scale_seen scale) byte before digits.now)) }
{
    let Some(number) = few_digits(digits) else {
        return Err(fault(VcdKind::TooLarge, byte));
    };
    match ticks_of(scale, number) {
        Ok(ticks) => {
            if number < before {
                return Err(fault(VcdKind::TimeFalls, byte));
            }
            Ok(Moment { number, ticks })
        }
        Err(kind) => Err(fault(kind, byte)),
    }
}
