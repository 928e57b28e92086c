//! The time limits of a connection.

ghost use Rattle.std.specs.Prelude.{◌≡◌, ◌+◌, ◌*◌, ◌-◌, ◌/◌, ◌<◌, ◌↔◌, ◌==◌, if◌then◌else◌, IsTrue, max, min};
ghost use Rattle.std.specs.Duration.{as_nanos};

use std::time::Duration;

/// Seconds after which a connection is closed if no byte of a request has come.
pub const MAX_IDLE_SECONDS: u64 = 2;

/// Milliseconds after which a connection is closed if no byte of a request has come and no worker
/// is free.
pub const MAX_CROWDED_IDLE_MILLISECONDS: u64 = 500;

/// Seconds after which a connection is closed if nothing has come within a request, or nothing
/// could be written within a reply.
pub const MAX_WAIT_SECONDS: u64 = 10;

/// Seconds from its first byte within which a request must be complete. Otherwise its connection is
/// closed.
pub const MAX_REQUEST_SECONDS: u64 = 60;

/// Seconds from its start within which a reply must be written, plus one for each
/// `REPLY_BYTES_A_SECOND` bytes of it. Otherwise its connection is closed.
pub const MAX_REPLY_SECONDS: u64 = 60;

/// The number of bytes for which a reply gets one more second.
pub const REPLY_BYTES_A_SECOND: u64 = 1_000_000;

/// Seconds after which a request that isn't complete is slow, plus one for each
/// `SLOW_BYTES_A_SECOND` bytes of it that have come. For a reply they count from its first wait for
/// the client, with the bytes written since.
pub const SLOW_SECONDS: u64 = 2;

/// The number of transferred bytes for which a request or a reply gets one more second before it is
/// slow.
pub const SLOW_BYTES_A_SECOND: u64 = 50_000;

/// While no worker is free, one in this many workers may stay with a slow client, and always at
/// least one.
pub const WORKERS_FOR_A_SLOW_CLIENT: u64 = 4;

/// Seconds that a request or a reply in progress has left once conversations are to end.
pub const MAX_ENDING_SECONDS: u64 = 5;

/// The maximal number of connections that wait for their clients without a worker.
pub const MAX_PARKED: u64 = 1_024;

/// The number of the process's descriptors that are left to other uses.
pub(crate) const SPARE_DESCRIPTORS: u64 = 64;

/// Seconds after which a connection that waits without a worker is closed if no byte of a request
/// has come.
pub const MAX_PARKED_SECONDS: u64 = 60;

/// Milliseconds that a worker waits for the client of a connection that can wait without one.
pub(crate) const TURN_WAIT_MILLISECONDS: u64 = 5;

/// Milliseconds after which a worker leaves a connection for another one after a reply, if no worker
/// is free.
pub(crate) const MAX_TURN_MILLISECONDS: u64 = 50;

/// Milliseconds between two searches for connections whose time is over.
pub(crate) const SWEEP_MILLISECONDS: u64 = 250;

/// The maximal number of events of one wait for connections.
pub(crate) const MAX_EVENTS: usize = 256;

/// The maximal number of connections that are accepted before others are served.
pub(crate) const MAX_ACCEPTED: usize = 64;

/// Milliseconds that take the place of `SLOW_SECONDS` while clients are known to wait for a worker.
pub const CROWDED_SLOW_MILLISECONDS: u64 = 250;

/// The number of waiting clients from which on a slow client has to be fastest.
pub const MAX_CROWD: u64 = 32;

/// How many bytes a second are no longer slow once `MAX_CROWD` clients wait.
pub const MAX_SLOW_BYTES_A_SECOND: u64 = 1_000_000;

/// The backlog of a listener: how many connections may wait to be accepted. The system may lower
/// it.
pub const MAX_WAITING: i32 = 1_024;

/// Milliseconds after which a wait for a client checks whether to continue.
pub const LOOK_MILLISECONDS: u64 = 50;

/// The maximal number of checks of one wait, so that it ends even if the clock fails.
pub(crate) const MAX_LOOKS: u64 = MAX_WAIT_SECONDS * 1_000 / LOOK_MILLISECONDS;

/// Returns how long to wait for the first byte of a request.
pub(crate) fn idle_limit(is_crowded: bool) -> Duration
    ensures value { as_nanos result ≡ (if is_crowded then 500_000_000 else 2_000_000_000) }
{
    if is_crowded {
        Duration::from_millis(MAX_CROWDED_IDLE_MILLISECONDS)
    } else {
        Duration::from_secs(MAX_IDLE_SECONDS)
    }
}

/// Returns how long a reply of `bytes` bytes may take.
pub(crate) fn reply_limit(bytes: u64) -> Duration
    ensures value { as_nanos result ≡ (60 + bytes / 1_000_000) * 1_000_000_000 }
{
    Duration::from_secs(MAX_REPLY_SECONDS + bytes / REPLY_BYTES_A_SECOND)
}

/// Returns how long a request or a reply may take before it is slow, if `bytes` bytes of it were
/// transferred and `crowd` clients are known to wait. The rate that counts rises with their number.
pub(crate) fn slow_limit(bytes: u64, crowd: u64) -> Duration
    ensures value { as_nanos result ≡ (if crowd == 0 then (2 + bytes / 50_000) * 1_000_000_000
        else (250 + bytes / (50 + min crowd 32 * 950 / 32)) * 1_000_000) }
{
    if crowd == 0 {
        return Duration::from_secs(SLOW_SECONDS + bytes / SLOW_BYTES_A_SECOND);
    }
    let (least, most) = (SLOW_BYTES_A_SECOND / 1_000, MAX_SLOW_BYTES_A_SECOND / 1_000);
    let rate = least + crowd.min(MAX_CROWD) * (most - least) / MAX_CROWD;
    Duration::from_millis(CROWDED_SLOW_MILLISECONDS + bytes / rate)
}

/// Returns how many of a number of workers may stay with slow clients while none is free.
pub(crate) fn most_slow(workers: u64) -> u64
    ensures value { result ≡ max 1 (workers / 4) }
{
    (workers / WORKERS_FOR_A_SLOW_CLIENT).max(1)
}

/// Returns true if more time than the limit has passed since `began`.
pub(crate) fn is_late(began: Duration, now: Duration, limit: Duration) -> bool
    ensures value { IsTrue result ↔ (as_nanos limit < as_nanos now - as_nanos began) }
{
    now.saturating_sub(began).as_nanos() > limit.as_nanos()
}
