//! What the types of one shared table have in common.

use std::marker::Brand;
use std::sync::ledger::Ledger;

/// The identity of a shared table: the book of its history, the journal that it was opened with,
/// and the number of its sessions. A caller's function that is generic over this trait fixes them
/// once. The ledger counts the accepted changes of the sessions.
pub trait Naming: Ledger {
    ghost use Rattle.std.specs.Prelude.{ℕ};
    ghost use Rattle.logbook.specs.Pages.{Book};
    ghost use Rattle.tfs_records.specs.Journal.{Journal};

    ghost book: { Book };

    ghost opening: { Journal };

    ghost sessions: { ℕ };
}

impl Naming for Brand {
    ghost use Rattle.tfs_records.specs.Journal.{opened, empty_base};

    ghost book = { record { number = 0; log_name = 0; cells_name = 0 } };

    ghost opening = { opened empty_base };

    ghost sessions = { 0 };
}
