//! Workers: conversations over the sessions of a shared table, on connections from one listener.
#![tactic(auto)]

mod client;
mod crew;
mod gate;
mod gated;
mod heard;
mod held_desk;
mod hold;
mod laws;
mod leaving;
mod member;
mod reports;
mod run;
mod runtime;
mod serving;
mod session_desk;
mod worker;

pub use client::{Client, ClientFields};
pub use gate::{Gate, Given, Open};
pub use gated::Gated;
pub use heard::Heard;
pub use hold::{Hold, NoHold};
pub use laws::{accepted_changes_stand_in_the_last_journal, all_replies_follow_one_journal};
pub use run::{Obstacle, Run, Served, Unserved, first_fault, serve, serve_until};
pub use runtime::Runtime;
pub use serving::work;
pub use session_desk::{MAX_BYTES_AT_ONCE, Service, SessionDesk};
pub use tfs_connections::{
    AcceptError, AcceptFault, AnyListener, AnyStream, Connection, LOOK_MILLISECONDS, LastingStream,
    LentListener, Load, MAX_CROWDED_IDLE_MILLISECONDS, MAX_ENDING_SECONDS, MAX_IDLE_SECONDS,
    MAX_PARKED, MAX_PARKED_SECONDS, MAX_REPLY_SECONDS, MAX_REQUEST_SECONDS, MAX_WAIT_SECONDS,
    MAX_WAITING, PAUSE_MILLISECONDS, ParkedConnections, REPLY_BYTES_A_SECOND, Remedy,
    SLOW_BYTES_A_SECOND, SLOW_SECONDS, WORKERS_FOR_A_SLOW_CLIENT, Written, bind_local, let_wait,
    limit_waits, remedy_of,
};
pub use tfs_conversation::{
    Desk, Ended, LentFault, MAX_READS, Outlet, Reads, RunFault, ServeFault, Source, TableDesk,
    Watched, bytes_have_an_output, bytes_have_one_list_of_messages, bytes_have_one_output,
    converse, converse_over_table, run_check, run_rebase,
};
pub use worker::{Worker, work_all};
