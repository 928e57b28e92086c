//! A count that only proofs read.

ghost use Rattle.std.specs.Prelude.{◌≡◌, ◌+◌, ℕ, sum_by};
ghost use Rattle.std.specs.Borrow.{ftrue};
ghost use Rattle.std.specs.Coded.{coded_ℕ};

use std::marker::Model;
use tfs_serve::{Gate, Served};

/// A count without a limit, which clauses read as `count`. It takes no memory, and its methods do
/// nothing at run time.
#[derive(Drop)]
pub struct Tally {
    pub ghost count: { ℕ } by { coded_ℕ },
}

impl Model for Tally {
    ghost also_owns = { λ _. ftrue };
}

/// A number to add to a count.
#[derive(Clone, Copy, Drop)]
pub(crate) struct Addend {
    pub(crate) number: u64,
}

impl Tally {
    /// Creates the count 0.
    #[inline(always)]
    pub fn new() -> Tally
        ensures { result.count ≡ 0 }
    {
        Tally {}
    }

    /// Returns the count plus a number.
    #[inline(always)]
    pub(crate) fn plus(&self, _addend: &Addend) -> Tally
        ensures { result.count ≡ self.now.count + _addend.now.number }
    {
        Tally {}
    }

    /// Returns the count plus the number of changes that workers reported as accepted.
    pub fn with<G: Gate>(&self, served: &[Served<G>]) -> Tally
        ensures { result.count ≡ self.now.count + sum_by (λ one. one.accepted) served.now }
    {
        let mut tally = self.plus(&Addend { number: 0 });
        for one in served {
            tally = tally.plus(&Addend {
                number: one.accepted,
            });
        }
        tally
    }
}
