//! Shared tables.

ghost use Rattle.std.specs.Prelude.{◌≡◌, ◌≤◌};
ghost use Rattle.tfs_records.specs.Journal.{position_of};
ghost use Rattle.tfs_published.specs.Beginning.{BeginsWith};

use crate::locked_state::LockedState;
use std::alloc::Global;
use std::marker::Model;
use std::sync::atomic::{AtomicU64, Ordering};
use std::sync::{Mutex, MutexGuard, Wait};
use tfs_published::{Naming, Point};
use tfs_records::Sink;
use tfs_table::Table;

/// A table under one lock, the newest point that replies have reported under another, and the
/// position at which the table was opened. Contracts see the number of its sessions.
pub struct Shared<J: Naming, K: Sink> {
    pub(crate) alloc: Global,
    pub(crate) locked_state: Mutex<LockedState<J, K>>,
    pub(crate) told: Mutex<Point<J>>,
    /// The position of that point, or a lower one while it advances.
    pub(crate) told_position: AtomicU64,
    pub(crate) number: usize,
    pub(crate) opened: u64,
}

impl<J: Naming, K: Sink> Model for Shared<J, K> {
    ghost use Rattle.std.specs.Prelude.{◌≡◌, ◌≤◌, ℕ};
    ghost use Rattle.tfs_records.specs.Journal.{position_of};

    ghost Value = { ℕ };

    ghost view = { λ s. s.number };

    ghost invariant = { λ s. (s.number ≡ J.sessions) × (s.opened ≡ position_of J.opening)
        × (J.parts ≡ J.sessions) × (1 ≤ J.sessions) × (J.sessions ≤ 16) };
}

impl<J: Naming, K: Sink> Shared<J, K> {
    /// Puts a table and its publisher under one lock, and a published point under another.
    pub(crate) fn new(
        alloc: Global,
        number: usize,
        opened: u64,
        told: Point<J>,
        locked_state: LockedState<J, K>,
    ) -> Shared<J, K>
        requires number { number ≡ J.sessions }
        requires opened { opened ≡ position_of J.opening }
        requires parts { J.parts ≡ J.sessions }
        requires some { (1 ≤ J.sessions) × (J.sessions ≤ 16) }
        ensures value { result ≡ number }
    {
        Shared {
            alloc,
            locked_state: Mutex::new(locked_state),
            told_position: AtomicU64::new(told.position()),
            told: Mutex::new(told),
            number,
            opened,
        }
    }

    /// Returns the position of the opening journal.
    pub fn opened(&self) -> u64
        ensures value { result ≡ position_of J.opening }
    {
        self.opened
    }

    /// Returns the table, without its sessions. Waits for readers; the remaining sessions get no
    /// more snapshots.
    pub fn close<R: Wait>(self, rt: &R) -> Table<K>
        ensures opening { BeginsWith result.journal J.opening }
    {
        let Shared {
            alloc: _,
            locked_state,
            told: _told,
            told_position: _,
            number: _,
            opened: _,
        } = self;
        let locked_state = locked_state.into_inner();
        // The journal begins with the opening one.
        locked_state.is_kept();
        locked_state.close(rt)
    }

    /// Returns the allocator.
    pub(crate) fn alloc(&self) -> Global {
        self.alloc
    }

    /// Takes the lock.
    pub(crate) fn lock<R: Wait>(&self, rt: &R) -> MutexGuard<'_, LockedState<J, K>> {
        self.locked_state.lock(rt)
    }

    /// Records that replies have reported a point, unless they have reported it or a later one.
    /// Waits only for calls of this function and of `told_after`, and not at all if there is
    /// nothing to record.
    pub(crate) fn tell<R: Wait>(&self, rt: &R, point: &Point<J>) {
        if point.position() <= self.told_position.load(Ordering::SeqCst) {
            return;
        }
        let mut told = self.told.lock(rt);
        told.advance(point);
        self.told_position.store(told.position(), Ordering::SeqCst);
        MutexGuard::unlock(told);
    }

    /// Returns the newest point that replies have reported, if its position is higher than this
    /// one. Waits only for calls of this function and of `tell`, and not at all if there is no such
    /// point.
    pub(crate) fn told_after<R: Wait>(&self, rt: &R, position: u64) -> Option<Point<J>> {
        if self.told_position.load(Ordering::SeqCst) <= position {
            return None;
        }
        let told = self.told.lock(rt);
        let point = told.again();
        MutexGuard::unlock(told);
        Some(point)
    }
}
