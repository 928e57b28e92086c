//! Escaping of texts from clients for terminals: characters of the Unicode categories Cc, Cf, Zl
//! and Zp are escaped.
#![tactic(auto)]

mod hex;
mod printed;

pub use printed::{is_printed, push_drawn, push_json, push_printed};
