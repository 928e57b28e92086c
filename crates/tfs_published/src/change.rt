//! The changes in the history of a shared table.

use std::marker::Model;
use std::sync::Arc;
use tfs_index::Version;
use tfs_records::Entry;
use tfs_table::Ready;

/// An accepted change: the number of the session that made it, its entry, and the version that its
/// name has afterwards. No value of it is made, since the history exists only for contracts.
#[derive(Drop)]
pub struct Change {
    maker: u64,
    entry: Entry,
    version: Option<Arc<Version>>,
}

impl Model for Change {
    ghost use Rattle.std.specs.Prelude.{option_map};
    ghost use Rattle.std.specs.Arc.{arc_value};
    ghost use Rattle.tfs_published.specs.Change.{ChangeValue};

    ghost Value = { ChangeValue };

    ghost view = { λ c. record { maker = c.maker; entry = c.entry; state = option_map arc_value c.version } };
}

/// A ready change, and the number of the session that makes it.
#[derive(Drop)]
pub struct Making<'r> {
    pub(crate) ready: &'r Ready,
    pub(crate) maker: u64,
}
