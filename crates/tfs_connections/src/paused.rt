//! What is left of a conversation between two turns.

use std::time::Duration;
use tfs_conversation::{PausedConversation, Reads};

/// What is left of a conversation between two turns.
#[derive(Drop)]
pub enum Paused {
    /// Nothing has come of the next request. So many reads were made.
    Between(Reads),
    /// A request has begun.
    Within(PausedConversation, Begun),
}

/// When the first byte of a request came, and how many bytes of it have come.
#[derive(Clone, Copy)]
pub struct Begun {
    pub since: Duration,
    pub bytes: u64,
}
