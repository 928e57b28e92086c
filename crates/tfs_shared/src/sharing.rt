//! The start of sharing: a table is split among sessions.

ghost use Rattle.std.specs.Prelude.{◌≡◌, ◌≤◌, [], false, IfOk, IfErr};
ghost use Rattle.tfs_shared.specs.Stops.{weight};
ghost use Rattle.tfs_shared.specs.View.{AreNew};

use crate::locked_state::LockedState;
use crate::session::{FAULT, Session};
use crate::shared::Shared;
use std::alloc::Global;
use std::sync::Wait;
use std::sync::ledger::{Blank, Share};
use tfs_published::{Naming, Opened, Publisher};
use tfs_records::Sink;
use tfs_table::Table;

/// Why a table wasn't shared.
#[derive(Clone, Copy, Debug, PartialEq, Eq)]
pub enum Cause {
    /// An allocation failed.
    NoMemory,
    /// There was no free reader slot for a session.
    NoPlace,
}

/// A table that wasn't shared, unchanged.
#[derive(Drop)]
pub struct Unshared<K: Sink> {
    pub table: Table<K>,
    pub why: Cause,
}

/// Shares a table among 1 to 16 sessions, which have seen the table's journal and made no changes.
/// The history and the ledger are new and have the names of `J`. After an error the table is
/// unchanged. Never waits, since there are no readers yet.
pub fn share<J: Naming, K: Sink, R: Wait>(
    rt: &R,
    alloc: Global,
    table: Table<K>,
    number: usize,
    blank: Blank,
    opened: Opened,
) -> Result<(Shared<J, K>, Vec<Session<J>>), Unshared<K>>
    requires number { (1 ≤ number) × (number ≤ 16) }
    requires sessions { (number ≡ J.sessions) × (J.parts ≡ J.sessions) }
    requires ledger { (blank.name ≡ J.name) × (blank.parts ≡ J.parts) }
    requires book { opened ≡ J.book }
    requires opening { table.journal ≡ J.opening }
    ensures shared { IfOk result (λ made. made.0 ≡ number) }
    ensures sessions { IfOk result (λ made. AreNew J.opening table.stopped number made.1.items) }
    ensures back { IfErr result (λ unshared. unshared.table ≡ table) }
{
    let (mut book, mut all) = blank.open::<J>();
    let stopped = table.stopped();
    if stopped {
        book.add(&mut all, FAULT);
    }
    let Ok(publisher) = Publisher::new(rt, alloc, &table, opened, number) else {
        let why = Cause::NoMemory;
        return Err(Unshared { table, why });
    };
    match sessions_of(alloc, &publisher, number, all, stopped) {
        Ok(sessions) => {
            let opened = table.position();
            let told = publisher.point();
            let locked_state = LockedState::new(table, publisher, book);
            let shared = Shared::new(alloc, number, opened, told, locked_state);
            Ok((shared, sessions))
        }
        Err(why) => {
            publisher.close(rt);
            Err(Unshared { table, why })
        }
    }
}

/// Creates a new session for each part of the share, numbered from 0. If the table is stopped, the
/// first session has its fault.
#[tactic(auto, using(crate::proofs::Signing::none_new, crate::proofs::Signing::one_new_more))]
fn sessions_of<J: Naming>(
    alloc: Global,
    publisher: &Publisher<J>,
    number: usize,
    all: Share<J>,
    stopped: bool,
) -> Result<Vec<Session<J>>, Cause>
    requires parts { all.parts ≡ number }
    requires amount { all.amount ≡ weight 0 stopped false }
    requires opening { (publisher.now.journal ≡ J.opening) × (publisher.now.makers ≡ []) }
    ensures value { IfOk result (λ sessions. AreNew J.opening stopped number sessions.items) }
{
    let mut rest = all;
    let Ok(mut sessions) = Vec::with_capacity(alloc, number) else {
        return Err(Cause::NoMemory);
    };
    for made in 0..number {
        let faulted = stopped && made == 0;
        let share = rest.split_off(1, if faulted { FAULT } else { 0 });
        let Some(reader) = publisher.reader() else {
            return Err(Cause::NoPlace);
        };
        let Ok(()) = sessions.push(Session::new(made as u64, reader, share, faulted)) else {
            return Err(Cause::NoMemory);
        };
    }
    Ok(sessions)
}
