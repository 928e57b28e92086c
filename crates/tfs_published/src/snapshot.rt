//! What a session reads in a copy.

use crate::lookup::Lookup;
use crate::token::Token;

/// What a session reads of a name in a copy: the token that the session has seen afterwards, and
/// what the copy has of the name.
#[derive(Drop)]
pub struct Snapshot {
    pub token: Token,
    pub lookup: Lookup,
}
