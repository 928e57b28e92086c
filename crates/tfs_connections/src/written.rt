//! The bytes read from connections and written to them, for proofs.

ghost use Rattle.std.specs.Prelude.{◌≡◌, ◌++◌, ◌∷◌, ℕ, List, []};
ghost use Rattle.std.specs.Borrow.{ftrue};
ghost use Rattle.std.specs.Coded.{coded_ℕ, coded_list};

use std::marker::Model;
use tfs_conversation::Conversation;

/// The bytes read from a connection, or written to it. Clauses read them as `bytes`. Takes no memory, and its
/// methods do nothing at run time.
#[derive(Drop)]
pub struct Text {
    pub ghost bytes: { List ℕ } by { coded_list coded_ℕ },
}

impl Model for Text {
    ghost also_owns = { λ _. ftrue };
}

impl Text {
    /// Creates a text of no bytes.
    #[inline(always)]
    pub(crate) fn new() -> Text
        ensures { result.bytes ≡ [] }
    {
        Text {}
    }

    /// Creates the text of the bytes that earlier turns of a conversation have left.
    #[inline(always)]
    pub(crate) fn of(_conversation: &Conversation) -> Text
        ensures { result.bytes ≡ _conversation.now.rest }
    {
        Text {}
    }

    /// Appends bytes.
    #[inline(always)]
    pub(crate) fn note(&mut self, _bytes: &[u8])
        ensures { self.new.bytes ≡ self.old.bytes ++ _bytes.now }
    {}
}

/// The bytes read from each connection of a list, and those written to it. Clauses read them as
/// `read` and `texts`. Takes no memory, and its methods do nothing at run time.
#[derive(Drop)]
pub struct Written {
    pub ghost read: { List (List ℕ) } by { coded_list (coded_list coded_ℕ) },
    pub ghost texts: { List (List ℕ) } by { coded_list (coded_list coded_ℕ) },
}

impl Model for Written {
    ghost also_owns = { λ _. ftrue };
}

impl Written {
    /// Creates a list of no connections.
    #[inline(always)]
    pub fn new() -> Written
        ensures { (result.read ≡ []) × (result.texts ≡ []) }
    {
        Written {}
    }

    /// Returns the list with one more connection, from which the first text was read, and to which
    /// the second was written.
    #[inline(always)]
    pub(crate) fn with(&self, _read: &Text, _text: &Text) -> Written
        ensures { (result.read ≡ self.now.read ++ _read.now.bytes ∷ []) × (result.texts ≡ self.now.texts ++ _text.now.bytes ∷ []) }
    {
        Written {}
    }
}
