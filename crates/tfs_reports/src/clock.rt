//! The current time, and the age of earlier times.

ghost use Rattle.std.specs.Prelude.{◌≡◌};
ghost use Rattle.tfs_reports.specs.Clock.{age_of};

use jiff::Timestamp;

/// Returns the current time in seconds since 1970, if there is a clock.
pub(crate) fn seconds_now(rt: &HostRuntime) -> Option<i64> {
    match Timestamp::now(rt) {
        Ok(now) => Some(now.as_second()),
        Err(_) => None,
    }
}

/// Returns how many seconds ago a time was, if both times are known; 0 for a time in the future.
pub(crate) fn age_of(now: Option<i64>, then: Option<i64>) -> Option<u64>
    ensures { result ≡ age_of now then }
{
    match (now, then) {
        (Some(now), Some(then)) => Some(if now < then { 0 } else { now.abs_diff(then) }),
        _ => None,
    }
}
