//! The ends of the commands of `tfstated`: the faults that they report on standard error, and all
//! exit statuses. This crate opens nothing and prints nothing.
#![tactic(auto)]

mod fault;
mod status;

pub use fault::ProgramFault;
pub use status::{fault_status, status_of};
