//! Answers of the web page about a state, as JSON: the addresses, resources and dependencies of its
//! instances. Who may read which workspace.
#![tactic(auto)]

mod instances;
mod readers;

pub use instances::{chosen_text, instances_text};
pub use readers::Reader;
