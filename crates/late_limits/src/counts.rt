// How many signals scopes have.
ghost use Rattle.std.specs.Prelude.{◌≡◌, IfOk, length, map};
ghost use Rattle.std.specs.List.{range_with_len};
ghost use Rattle.sg_circuit.specs.FanOut.{readers_at};
ghost use Rattle.sg_circuit.specs.Signals.{signals};
ghost use Rattle.late_limits.specs.Found.{signals_at, AreAmong};

use crate::groups::windows_by_scope;
use crate::pairs::meet_all;
use crate::signals::Signals;
use sg_circuit::{CheckTiming, FanOut, Parts};
use sg_text::NoMemory;
use std::alloc::Global;

// The signals of one scope after another are numbered.
fn count_all(
    alloc: Global,
    timings: &[CheckTiming],
    windows: &FanOut,
    scopes: u32,
) -> Result<Vec<u32>, NoMemory>
    requires there { AreAmong (length timings.now) windows.now }
    requires scopes { length windows.now ≡ scopes }
    ensures { IfOk result (λ counts. counts.items ≡ map (λ scope. length (signals_at timings.now (readers_at windows.now scope))) (range_with_len 0 scopes)) }
{
    let mut signals = Signals::new(alloc);
    let mut counts = Vec::with_capacity(alloc, scopes as usize)?;
    for scope in 0..scopes {
        meet_all(&mut signals, timings, windows.of(scope))?;
        counts.push(signals.count())?;
    }
    Ok(counts)
}

/// How many signals each scope has: nets of timing checks that take limits below 0 (IEEE 1364-2005, 15.8). Takes time in proportion to checks and scopes, and memory to the greatest number of
/// a signal's net too.
///
/// `NoMemory` where there is none, or where there are 2^32 checks, scopes, or signals of a scope.
pub fn signal_counts(alloc: Global, parts: &Parts) -> Result<Vec<u32>, NoMemory>
    requires checks_fit { length parts.now.checks.items ≡ length parts.now.check_timings.items }
    ensures { IfOk result (λ counts. counts.items ≡ map (λ scope. length (signals parts.now.checks.items parts.now.check_timings.items scope)) (range_with_len 0 (length parts.now.scopes.items))) }
{
    let Ok(scopes) = u32::try_from(parts.scopes.len()) else {
        return Err(NoMemory);
    };
    let windows = windows_by_scope(alloc, &parts.checks, &parts.check_timings, scopes)?;
    let counts = count_all(alloc, &parts.check_timings, &windows, scopes)?;
    Ok(counts)
}
