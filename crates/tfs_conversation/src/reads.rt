//! The count of a conversation's reads.

ghost use Rattle.std.specs.Prelude.{◌≡◌, ◌+◌, ◌≤◌, true, false};

use std::marker::Model;

/// The maximal number of reads of a conversation.
pub const MAX_READS: u64 = 1_048_576;

/// The number of reads of a conversation. Each read is counted before it is made.
#[derive(Drop)]
pub struct Reads {
    used: u64,
}

impl Model for Reads {
    ghost use Rattle.std.specs.Prelude.{ℕ, ◌≤◌};

    ghost Value = { ℕ };

    ghost view = { λ r. r.used };

    ghost invariant = { λ r. r.used ≤ 1048576 };
}

impl Reads {
    /// Makes a count of no reads.
    pub fn new() -> Reads
        ensures value { result ≡ 0 }
    {
        Reads { used: 0 }
    }

    /// Returns the number of reads.
    pub fn used(&self) -> u64
        ensures value { result ≡ self.now }
        ensures limit { result ≤ 1048576 }
    {
        self.used
    }

    /// Counts one more read. Returns false, and counts nothing, if the maximum was reached.
    pub(crate) fn count(&mut self) -> bool
        ensures counted { result ≡ true → (self.new ≡ self.old + 1) × (self.new ≤ 1048576) }
        ensures full { result ≡ false → (self.new ≡ self.old) × (self.old ≡ 1048576) }
    {
        if self.used == MAX_READS {
            return false;
        }
        self.used += 1;
        true
    }
}
