//! Public items by the names of the crates that offer them, including those defined in a lower
//! crate. The other files, the program `tfs_probe` and the server call them.

pub(crate) use tfs_addr::{AddrFault, Key, Mode, config_text, instance_text, strip};
pub(crate) use tfs_http::{Form, Request, Routes, Take, call_of, take, write_reply};
pub(crate) use tfs_index::{ImpactFault, Version};
pub(crate) use tfs_journal::{
    Base, BaseRow, Decoded, Discard, End, Entries, Entry, FileSink, MemorySink, Out, Rows, Sink,
    SinkFault, decode, encode, encode_base,
};
pub(crate) use tfs_lock::{Id, LockFault, LockInfo};
pub(crate) use tfs_planes::{Plane, Row, count_words, equal_words, meet_words, union_words};
pub(crate) use tfs_rules::{Act, Name, Record, Verdict};
pub(crate) use tfs_serve::{
    AcceptFault, Desk, Ended, Gated, Load, Reads, RunFault, ServeFault, Service, SessionDesk,
    TableDesk, Watched, Worker, converse, run_check, run_rebase, work, work_all,
};
pub(crate) use tfs_shared::{Naming, Session, Shared};
pub(crate) use tfs_state::{Doc, StateFault};
pub(crate) use tfs_table::{
    Bytes, Call, Chosen, Draft, Impact, Kind, OpenFault, Prepared, Query, Raw, Ready, Refusal,
    Reply, Table, Text, Texts, first_unlawful,
};
