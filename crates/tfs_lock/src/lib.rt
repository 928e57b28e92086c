//! Reads the lock information of Terraform's http backend, and keeps its unchanged text. Only the
//! identifier is read from it.
#![tactic(auto)]

mod fault;
mod id;
mod laws;
mod lock_info;

pub use fault::LockFault;
pub use id::{Id, MAX_ID_BYTES};
pub use laws::bytes_spell_lock_info_or_have_a_fault;
pub use lock_info::{LockInfo, MAX_LOCK_BYTES};
