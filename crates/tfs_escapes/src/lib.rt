//! Texts escaped for the inside of a JSON string (RFC 8259, section 7): their length, and appending
//! them to a vector.
#![tactic(auto)]

mod escaped;
mod plain;
mod telling;

pub use escaped::{escaped_len, push_escaped};
pub use telling::{tell, tell_escaped};
