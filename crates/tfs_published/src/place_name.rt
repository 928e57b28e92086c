//! The names of places.

ghost use Rattle.std.specs.Prelude.{◌≡◌, ◌≤◌, length};
ghost use Rattle.std.specs.Str.{bytes_eq};

use std::marker::Model;
use tfs_rules::Name;

/// The name of a place. Its bytes are stored in the place itself, so that copying it allocates
/// nothing.
#[derive(Drop)]
pub struct PlaceName {
    bytes: [u8; 64],
    length: usize,
}

impl Model for PlaceName {
    ghost use Rattle.std.specs.Prelude.{ℕ, ◌≤◌, List, take};

    ghost Value = { List ℕ };

    ghost view = { λ n. take n.length n.bytes };

    ghost invariant = { λ n. n.length ≤ 64 };
}

impl PlaceName {
    /// Copies the name of a workspace.
    pub fn of(name: &Name) -> PlaceName
        ensures value { result ≡ name.now }
    {
        let text = name.text().as_bytes();
        let mut bytes = [0; 64];
        bytes[..text.len()].copy_from_slice(text);
        PlaceName {
            bytes,
            length: text.len(),
        }
    }

    /// Returns an equal name. Allocates nothing.
    pub fn again(&self) -> PlaceName
        ensures value { result ≡ self.now }
    {
        PlaceName {
            bytes: self.bytes,
            length: self.length,
        }
    }

    /// Returns true if the name is this text.
    pub fn is(&self, text: &str) -> bool
        ensures value { result ≡ bytes_eq self.now text.now }
    {
        &self.bytes[..self.length] == text.as_bytes()
    }
}
