//! The identifiers of locks.

ghost use Rattle.std.specs.Prelude.{◌≡◌, ◌↔◌, IsTrue, IsSome, IfSome, IfOk, string_bytes};
ghost use Rattle.std.specs.Str.{IsUtf8};
ghost use Rattle.tfs_lock.specs.Id.{IsIdText};

use std::alloc::{AllocError, Global};
use std::marker::Model;

/// The maximum number of bytes in an identifier.
pub const MAX_ID_BYTES: usize = 256;

/// The identifier of a lock: a text of 1 to 256 bytes of UTF-8, with any characters. Identifiers
/// are case-sensitive.
#[derive(Debug, Drop)]
pub struct Id {
    text: String,
}

impl Model for Id {
    ghost use Rattle.std.specs.Prelude.{List, ℕ, string_bytes};
    ghost use Rattle.tfs_lock.specs.Id.{IsIdText};

    ghost Value = { List ℕ };

    ghost view = { λ id. string_bytes id.text };

    ghost invariant = { λ id. IsIdText (string_bytes id.text) };
}

impl Id {
    /// Creates an identifier from a text, if the text is one.
    pub fn read(text: String) -> Option<Id>
        ensures valid { IsSome result ↔ IsIdText (string_bytes text) }
        ensures value { IfSome result (λ id. id ≡ string_bytes text) }
    {
        if is_id_text(text.as_str()) {
            Some(Id { text })
        } else {
            None
        }
    }

    /// Returns the unchanged text of the identifier.
    pub fn text(&self) -> &str
        ensures value { result.now ≡ self.now }
        ensures valid { IsIdText self.now }
        ensures utf8 { IsUtf8 self.now }
    {
        self.text.as_str()
    }

    /// Returns a copy of the identifier. Fails only if a request for memory is refused.
    pub fn copy(&self) -> Result<Id, AllocError>
        ensures value { IfOk result (λ id. id ≡ self.now) }
    {
        Ok(Id {
            text: self.text.clone()?,
        })
    }

    /// Creates an identifier from a valid text.
    pub(crate) fn copy_of(alloc: Global, text: &str) -> Result<Id, AllocError>
        requires { IsIdText text.now }
        ensures value { IfOk result (λ id. id ≡ text.now) }
    {
        Ok(Id {
            text: String::from_str(alloc, text)?,
        })
    }
}

fn is_id_text(text: &str) -> bool
    ensures { IsTrue result ↔ IsIdText text.now }
{
    !text.is_empty() && text.len() <= MAX_ID_BYTES
}
