//! Reads state documents of Terraform's state format, version 4, and keeps their unchanged text.
//! Gives the resource instances in a state, their addresses, and which instance depends on which.
#![tactic(auto)]

mod address;
mod content;
mod digest;
mod doc;
mod fault;
mod instance;
mod laws;
mod members;
mod names;
mod numbers;
mod packed;
mod resource;
mod tables;

pub use address::Address;
pub use digest::text_digest;
pub use doc::{Doc, MAX_STATE_BYTES};
pub use fault::StateFault;
pub use laws::{bytes_spell_a_document_or_have_a_fault, faults_are_first_by_position};
pub use numbers::Numbers;
