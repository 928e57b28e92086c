//! The place of a state's pieces.

ghost use Rattle.std.specs.Prelude.{◌≡◌, ◌<◌, ◌^◌, Some, string_bytes, IfOk, IfSome};
ghost use Rattle.tfs_store.specs.Texts.{place_text};
ghost use Rattle.tfs_store.specs.declared.place.Place.{Place};

use crate::number::{read_number, read_number_before};
use std::alloc::{AllocError, Global};

/// The place of a state's pieces: who wrote them, at which position, and the length of the state.
#[derive(Clone, Copy, Debug, PartialEq, Eq)]
pub struct Place {
    /// The position of the journal after the group with the state.
    pub position: u64,
    /// The token of the server that wrote the pieces.
    pub token: u64,
    /// The number of bytes of the state.
    pub length: u64,
}

impl Place {
    /// Returns the text of the place: `POSITION-TOKEN-LENGTH`.
    pub fn text(&self, alloc: Global) -> Result<String, AllocError>
        ensures text { IfOk result (λ text. string_bytes text ≡ place_text self.now) }
    {
        format!(in alloc; "{}-{}-{}", self.position, self.token, self.length)
    }

    /// Reads the text of a place. Returns `None` for any other text.
    pub fn read(text: &str) -> Option<Place>
        ensures read { IfSome result (λ place. text.now ≡ place_text place) }
        ensures written { (place : Place) → place.position < 2 ^ 64 → place.token < 2 ^ 64
            → place.length < 2 ^ 64 → text.now ≡ place_text place → result ≡ Some place }
    {
        let (position, rest) = read_number_before(text, '-')?;
        let (token, rest) = read_number_before(rest, '-')?;
        let length = read_number(rest)?;
        Some(Place {
            position,
            token,
            length,
        })
    }
}
