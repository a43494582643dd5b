// The windows of the parts of timing checks, looked at from the latest times alone.
ghost use Rattle.std.specs.Prelude.{◌≡◌};
ghost use Rattle.time_checks.specs.Windows.{exceeds, size};
ghost use Rattle.time_checks.specs.Kept.{hold_kept, near as near_kept, now_kept, setup_kept, skew_kept, width_kept};

/// The times of a reference event and of a data event.
pub type Pair = (u64, u64);

// The time, where it is less than the limit ago.
fn near(limit: u64, time: u64, earlier: Option<u64>) -> Option<u64>
    ensures { result ≡ near_kept limit time earlier }
{
    match earlier {
        Some(t) if time.saturating_sub(t) < limit => Some(t),
        _ => None,
    }
}

/// A reference event now and a data event before it, less than the limit away.
pub fn setup_times(limit: u64, time: u64, refer: bool, datum_time: Option<u64>) -> Option<Pair>
    ensures { result ≡ setup_kept limit time refer datum_time }
{
    if !refer {
        return None;
    }
    match near(limit, time, datum_time) {
        Some(t) => Some((time, t)),
        None => None,
    }
}

// Both events now, where the latest data event is.
fn both_now(limit: u64, time: u64, datum_time: Option<u64>) -> Option<Pair>
    ensures { result ≡ now_kept limit time datum_time }
{
    match datum_time {
        Some(t) if time <= t && 0 < limit => Some((time, time)),
        _ => None,
    }
}

/// The later of the two events now, less than the limit after the reference event.
pub fn hold_times(
    limit: u64,
    time: u64,
    refer: bool,
    datum: bool,
    refer_time: Option<u64>,
    datum_time: Option<u64>,
) -> Option<Pair>
    ensures { result ≡ hold_kept limit time refer datum refer_time datum_time }
{
    if !datum {
        return if refer {
            both_now(limit, time, datum_time)
        } else {
            None
        };
    }
    match near(limit, time, refer_time) {
        Some(t) => Some((t, time)),
        None => None,
    }
}

/// An edge now, less than the limit and more than the threshold after the latest reference event.
pub fn width_times(
    limit: u64,
    threshold: u64,
    time: u64,
    happens: bool,
    refer_time: Option<u64>,
) -> Option<Pair>
    ensures { result ≡ width_kept limit threshold time happens refer_time }
{
    if !happens {
        return None;
    }
    match refer_time {
        Some(t) if threshold < time.saturating_sub(t) && time.saturating_sub(t) < limit => {
            Some((t, time))
        }
        _ => None,
    }
}

fn is_more(distance: u64, limit: i64) -> bool
    ensures { result ≡ exceeds limit distance }
{
    limit < 0 || (limit as u64) < distance
}

/// A data event now, more than the limit after the latest reference event.
pub fn skew_times(limit: i64, time: u64, datum: bool, refer_time: Option<u64>) -> Option<Pair>
    ensures { result ≡ skew_kept limit time datum refer_time }
{
    if !datum {
        return None;
    }
    match refer_time {
        Some(t) if is_more(time.saturating_sub(t), limit) => Some((t, time)),
        _ => None,
    }
}

/// A limit's size, which is 0 where the limit is below 0.
pub fn size_of(limit: i64) -> u64
    ensures { result ≡ size limit }
{
    if limit < 0 { 0 } else { limit as u64 }
}
