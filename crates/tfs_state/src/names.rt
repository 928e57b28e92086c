//! Numbers that represent texts while a document is read.

ghost use Rattle.std.specs.Prelude.{◌≡◌, ◌≤◌, Some, IfOk, OnErr, slice_get, string_bytes, []};
ghost use Rattle.tfs_state.specs.Names.{AreApart, Extends};

use indexmap::IndexSet;
use std::alloc::{AllocError, Global};
use std::marker::Model;

/// Texts with their numbers: equal texts have the same number, and different texts have different
/// ones.
#[derive(Drop)]
pub(crate) struct Names {
    texts: IndexSet<String>,
}

impl Model for Names {
    ghost use Rattle.std.specs.Prelude.{ℕ, List, map, string_bytes};
    ghost use Rattle.tfs_state.specs.Names.{AreApart};

    ghost Value = { List (List ℕ) };

    ghost view = { λ n. map string_bytes n.texts.keys };

    ghost invariant = { λ n. AreApart (map string_bytes n.texts.keys) };
}

impl Names {
    /// Creates an empty list of texts.
    pub(crate) fn new(alloc: Global) -> Names
        ensures { result ≡ [] }
    {
        Names {
            texts: IndexSet::new(alloc),
        }
    }

    /// Returns the number of a text, and assigns one to a new text.
    pub(crate) fn number(&mut self, text: String) -> Result<u32, AllocError>
        ensures grown { IfOk result (λ _. Extends self.old self.new) }
        ensures ok { IfOk result (λ n. slice_get self.new n ≡ Some (string_bytes text)) }
    {
        let (number, _) = self.texts.insert_full(text)?;
        short(number)
    }

    /// Provides the fact that equal texts have the same number.
    pub(crate) fn apart(&self)
        ensures { AreApart self.now }
    {
        let _count = self.texts.len();
    }
}

/// Converts a number to 32 bits. A state of 16 MiB has fewer texts than there are 32-bit numbers.
pub(crate) fn short(number: usize) -> Result<u32, AllocError>
    ensures ok { IfOk result (λ n. n ≡ number) }
    ensures err { OnErr result (4294967296 ≤ number) }
{
    match u32::try_from(number) {
        Ok(number) => Ok(number),
        Err(_) => Err(AllocError),
    }
}
