//! The calls of a table.

use crate::bytes::Bytes;
use crate::query::Query;
use crate::text::Text;
use tfs_rules::Name;

/// A change of a workspace before its texts are read. A text is the lock identifier that the
/// request gives in addition to its body; an empty one counts as none.
#[derive(Drop)]
pub enum Raw {
    /// Locks the workspace, with the lock information in the body.
    Lock(Bytes),
    /// Unlocks the workspace. The identifier of the lock is in the body or, if the body is empty,
    /// in the text. An unlock without either is forced.
    Unlock(Bytes, Option<Text>),
    /// Replaces the workspace's state with the state in the body.
    Push(Option<Text>, Bytes),
    /// Deletes the workspace's state.
    Delete(Option<Text>),
}

/// A request to a table.
#[derive(Drop)]
pub enum Call {
    /// Reads the state of a name.
    Read(Name),
    /// Changes the workspace of a name.
    Change(Name, Raw),
    /// Queries the impact of changes in the state of a name.
    Impact(Name, Query),
}
