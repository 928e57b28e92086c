//! The shared table: sessions over one lock, and impact queries and reads over snapshots, which
//! never wait for the lock.
#![tactic(auto)]

mod gathering;
mod impact;
mod locked;
mod locked_state;
mod merge;
mod published_state;
mod session;
mod shared;
mod sharing;
mod telling;
mod threads;

pub use gathering::{Lack, Strangers, gather};
pub use locked_state::LockedState;
pub use session::Session;
pub use shared::Shared;
pub use sharing::{Cause, Unshared, share};
pub use tfs_published::{Naming, Opened};
pub use threads::{a_session_is_send, a_shared_table_is_sync};
