//! The replies of a table.

use crate::impact::Impact;
use crate::refusal::Refusal;
use std::sync::Arc;
use tfs_state::Doc;

/// The reply to a call.
#[derive(Drop)]
pub enum Reply {
    /// The change was accepted. Carries the position of the journal after it.
    Done(u64),
    /// The requested state.
    State(Arc<Doc>),
    /// The instances that a change affects.
    Impact(Impact),
    /// The call was refused for this reason, and the journal is unchanged.
    Refused(Refusal),
}
