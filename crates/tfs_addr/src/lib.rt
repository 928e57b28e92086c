//! Terraform's addresses: a text without its instance keys, and the addresses of a configuration
//! block and of its instances.
#![tactic(auto)]

mod address;
mod either;
mod fault;
mod json;
mod laws;
mod resource;
mod stripping;

pub use address::{config_text, front_text, instance_text, tail_text};
pub use fault::AddrFault;
pub use laws::{reads_once, reads_or_stops, stripped_text_agrees, strips_once};
pub use resource::{Key, Mode};
pub use stripping::strip;
