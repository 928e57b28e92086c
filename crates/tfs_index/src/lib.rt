//! The impact index of state documents: the resource instances that a change of an instance
//! reaches, by walks of dependencies, and the answers to queries by address.
#![tactic(auto)]

mod directory;
mod fault;
mod impact;
mod index;
mod laws;
mod links;
mod listing;
mod names;
mod version;

pub use fault::ImpactFault;
pub use laws::impact_follows_names_and_walks;
pub use names::MAX_TEXTS;
pub use version::Version;
