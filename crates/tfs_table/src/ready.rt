//! Changes that a table has accepted and not made yet.

ghost use Rattle.std.specs.Prelude.{◌≡◌, ◌<◌, length, None, Some, option_map, slice_get};
ghost use Rattle.std.specs.Arc.{arc_value};
ghost use Rattle.tfs_rules.specs.History.{state_of};
ghost use Rattle.tfs_records.specs.Journal.{acts_of, names_of, with_entry};
ghost use Rattle.tfs_records.specs.Format.{record_text};
ghost use Rattle.tfs_calls.specs.Transition.{act_refusal, open_model};

use std::marker::Model;
use std::snapshot::Snapshot;
use std::sync::Arc;
use tfs_index::Version;
use tfs_records::{Base, Entry};
use tfs_rules::{Act, Name};

/// A change that a table has accepted, with all the memory that it needs. Contracts see the journal
/// that the table had, and the entry to be added.
#[derive(Drop)]
pub struct Ready {
    pub(crate) entry: Entry,
    pub(crate) name: Name,
    pub(crate) number: usize,
    pub(crate) act: Act,
    pub(crate) version: Option<Arc<Version>>,
    pub(crate) text: Arc<Vec<u8>>,
    pub(crate) base: Snapshot<Base>,
    pub(crate) entries: Snapshot<Vec<Entry>>,
}

impl Model for Ready {
    ghost use Rattle.std.specs.Prelude.{option_map};
    ghost use Rattle.std.specs.Arc.{arc_value};
    ghost use Rattle.tfs_rules.specs.Act.{act_value};
    ghost use Rattle.tfs_table.specs.Ready.{ReadyValue, IsReady};

    ghost Value = { ReadyValue };

    ghost view = { λ r. record { journal = record { base = r.base.value; entries = r.entries.value.items }; entry = r.entry } };

    ghost invariant = { λ r. IsReady (record { journal = record { base = r.base.value; entries = r.entries.value.items }; entry = r.entry })
        r.name r.number (act_value r.act) (option_map arc_value r.version) (arc_value r.text).items };
}

impl Ready {
    /// Returns the name whose workspace is changed.
    pub fn name(&self) -> &Name
        ensures value { result.now ≡ self.now.entry.name }
    {
        &self.entry.name
    }

    /// Returns the entry to be added.
    pub fn entry(&self) -> &Entry
        ensures value { result.now ≡ self.now.entry }
    {
        &self.entry
    }

    /// Returns the length in bytes of the entry's record.
    pub fn record_len(&self) -> usize
        ensures value { result ≡ length (record_text self.now.entry) }
    {
        self.text.len()
    }

    /// Returns the number that the name has afterwards among the journal's names, from 0, in the
    /// order of their first occurrence. It stays the same while the table lives.
    pub fn number(&self) -> usize
        ensures value { slice_get (names_of (with_entry self.now.journal self.now.entry)) result ≡ Some self.now.entry.name }
        ensures most { result < 1024 }
    {
        self.number
    }

    /// Returns the version that the name has afterwards, if it has a state then.
    pub fn version(&self) -> Option<&Arc<Version>>
        ensures value { option_map (λ version. arc_value version.now) result
            ≡ state_of (acts_of self.now.entry.name (with_entry self.now.journal self.now.entry)) }
        ensures accepted { act_refusal (open_model self.now.journal) self.now.entry.name self.now.entry.act ≡ None }
    {
        self.version.as_ref()
    }
}
