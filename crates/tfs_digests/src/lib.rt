//! The MD5 digests (RFC 1321) of four texts, computed together.
#![tactic(auto)]

mod lanes;
mod message;
mod texts;

pub use texts::digests;
