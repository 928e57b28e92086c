//! The workspaces of a folder that read outputs of a workspace, directly or through others.
#![tactic(auto)]

mod address;
mod answer;
mod fault;
mod laws;
mod reading;
mod relating;
mod workspace;

pub use answer::{Readers, readers_of};
pub use fault::AcrossFault;
pub use laws::{addresses_name_workspaces, readers_of_a_reader_are_readers};
pub use workspace::Workspace;
