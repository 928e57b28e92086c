//! The files of folders of journals: the lock, the next journal of a start, copies, retention, and
//! the ends of commands by faults.
#![tactic(auto)]

mod ahead;
mod choosing;
mod copies;
mod fault;
mod first;
mod folder;
mod guard;
mod identity;
mod late;
mod logs;
mod marks;
mod naming;
mod next;
mod old;
mod outline;
mod own;
mod parts;
mod past;
mod position_file;
mod readers;
mod retention;
mod stack;
mod start;
mod synced;
mod zeros;

pub use choosing::{Choice, choose_parts, choose_planned, plan_of};
pub use copies::{CopyFolders, Gap, name_parts};
pub use fault::{CommandEnd, CommandFault, FaultPlace, end_by, status_of};
pub use first::{FIRST_NUMBER, make_first};
pub use folder::{
    JournalName, Numbers, journal_path, numbers_here, numbers_in, numbers_of, old_numbers,
    refuse_served,
};
pub use guard::{FolderLock, ServedJournal, lock_folder};
pub use logs::{LogName, log_path, remove_logs};
pub use marks::MOST_MARKED;
pub use naming::{DurableJournal, FolderFiles, NamingFault, place, place_copy, place_new, retire};
pub use next::{JournalSink, part_path, remove_part, sink_of};
pub use old::remove_expired;
pub use outline::{
    JournalOutline, Outlined, OutlinedAlone, outline_alone, outline_here, outline_old,
};
pub use own::{mark_copies, mark_grown, refuse_other_copies, refuse_other_original};
pub use parts::{CopyEnd, Parts, write_parts};
pub use position_file::{PositionFile, least_position, raise_least};
pub use retention::{Limits, OldFile, Retention, expired};
pub use stack::{LEAST_STACK, refuse_small_stack};
pub use start::{Made, Start, start_journal};
pub use synced::{SyncedName, record_synced};
pub use zeros::{Zeros, is_cut};
