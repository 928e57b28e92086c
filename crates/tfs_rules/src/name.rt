//! The names of workspaces.

ghost use Rattle.std.specs.Prelude.{◌≡◌, ◌↔◌, IsTrue, IsSome, IfSome, IfOk, string_bytes};
ghost use Rattle.std.specs.List.{list_all};
ghost use Rattle.tfs_rules.specs.Name.{IsName, is_name_byte};

use std::alloc::AllocError;
use std::marker::Model;

/// The maximum number of bytes in a name.
pub const MAX_NAME_BYTES: usize = 64;

/// The name of a workspace: 1 to 64 ASCII letters, digits, `_`, `-` and `.`. Names are
/// case-sensitive.
#[derive(Debug, Drop)]
pub struct Name {
    text: String,
}

impl Model for Name {
    ghost use Rattle.std.specs.Prelude.{List, ℕ, string_bytes};
    ghost use Rattle.tfs_rules.specs.Name.{IsName};

    ghost Value = { List ℕ };

    ghost view = { λ n. string_bytes n.text };

    ghost invariant = { λ n. IsName (string_bytes n.text) };
}

impl Name {
    /// Creates a name from a text, if the text is one.
    pub fn read(text: String) -> Option<Name>
        ensures valid { IsSome result ↔ IsName (string_bytes text) }
        ensures value { IfSome result (λ name. name ≡ string_bytes text) }
    {
        if is_name(text.as_str()) {
            Some(Name { text })
        } else {
            None
        }
    }

    /// Returns the unchanged text of the name.
    pub fn text(&self) -> &str
        ensures value { result.now ≡ self.now }
        ensures valid { IsName self.now }
    {
        self.text.as_str()
    }

    /// Returns a copy of the name. Fails only if a request for memory is refused.
    pub fn copy(&self) -> Result<Name, AllocError>
        ensures value { IfOk result (λ name. name ≡ self.now) }
    {
        Ok(Name {
            text: self.text.clone()?,
        })
    }
}

/// Returns true if a text is a name. Makes no copy of the text.
pub fn is_name(text: &str) -> bool
    ensures { IsTrue result ↔ IsName text.now }
{
    !text.is_empty() && text.len() <= MAX_NAME_BYTES && has_name_bytes(text)
}

fn has_name_bytes(text: &str) -> bool
    ensures { result ≡ list_all is_name_byte text.now }
{
    text.bytes().all(is_name_byte)
}

fn is_name_byte(byte: u8) -> bool
    ensures { result ≡ is_name_byte byte }
{
    byte.is_ascii_alphanumeric() || (byte == b'_' || (byte == b'-' || byte == b'.'))
}
