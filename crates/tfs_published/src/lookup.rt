//! What a copy has of a name.

use std::sync::Arc;
use tfs_index::Version;

/// The result of looking up a name in a copy.
#[derive(Drop)]
pub enum Lookup {
    /// The name has no state.
    NoState,
    /// The name has a state, but this copy has lost its version, or the clone of the version was
    /// refused.
    Lost,
    /// The version of the name's state.
    Kept(Arc<Version>),
}
