//! The environment of workers.

use crate::hold::Hold;
use std::alloc::Global;
use std::sync::atomic::AtomicBool;

/// The runtime, the allocator, the hold of the replies, and two flags: `ended` asks conversations
/// to end, and `muted` forbids all writes.
///
/// Once `ended` is set, a conversation ends between two requests: immediately after a reply, or
/// when no byte of a request has come. A request or a reply in progress has 5 seconds left. A
/// worker that waits for a connection asks its gate again when the listener has reported a
/// temporary error (`limit_waits`).
///
/// Once `muted` is set, each write to a connection that begins later fails, so that no client gets
/// any more bytes.
#[derive(Drop)]
pub struct Runtime<'r, R, H: Hold> {
    pub rt: &'r R,
    pub alloc: Global,
    pub hold: &'r H,
    pub ended: &'r AtomicBool,
    pub muted: &'r AtomicBool,
}
