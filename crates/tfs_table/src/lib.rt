//! The table of workspaces over a journal that is written to a sink.
#![tactic(auto)]

mod compact;
mod fault;
mod judge;
mod laws;
mod lookups;
mod making;
mod open;
mod prepared;
mod ready;
mod rebase;
mod replay;
mod standing;
mod start;
mod table;
mod versions;
mod workspace;
mod workspaces;

pub use fault::OpenFault;
pub use laws::{
    compacted_journals_are_judged_as_before, journals_are_lawful_entry_by_entry,
    lawful_journals_keep_the_history_laws, rebased_journals_keep_all_names,
};
pub use prepared::{DeferredDrop, Prepared};
pub use ready::Ready;
pub use rebase::base_of;
pub use replay::{first_unlawful, take_entry, workspaces_of};
pub use table::Table;
pub use tfs_calls::{
    Bytes, Call, Chosen, Draft, Impact, Kind, Methods, Query, Raw, Refusal, Reply, Text, Texts,
};
pub use workspace::Workspace;

/// The maximum number of names of a table.
pub const MAX_NAMES: usize = 1_024;

/// The maximum number of entries of a table's journal.
pub const MAX_ENTRIES: usize = 65_536;

// The definitions have these limits as numbers.
const _: () = prove!(MAX_NAMES == 1_024 && MAX_ENTRIES == 65_536);
