//! The numbers of a running server, which its threads share.

use crate::answers::Answers;
use crate::durations::Durations;
use crate::kind::Kind;
use crate::text::{add_answers, add_compactions, add_journal, add_syncs};
use std::alloc::{AllocError, Global};
use std::sync::atomic::{AtomicU64, Ordering};
use std::sync::{Mutex, MutexGuard, Wait};
use std::time::Duration;
use tfs_calls::{Refusal, Reply};

/// Numbers of compactions, and how long requests waited for them, in milliseconds.
#[derive(Clone, Copy, Debug)]
pub struct Compactions {
    pub made: u64,
    pub failed: u64,
    pub waited: u64,
    pub longest: u64,
}

/// The served journal after the last accepted change: its position, and its durable bytes.
#[derive(Clone, Copy, Debug)]
pub struct Journal {
    pub position: u64,
    pub bytes: u64,
}

/// The numbers of a running server.
#[derive(Drop)]
pub struct Meter {
    answers: Mutex<Answers>,
    syncs: Mutex<Durations>,
    compactions: Mutex<Compactions>,
    position: AtomicU64,
    bytes: AtomicU64,
}

impl Meter {
    /// Makes the meter of a server that has answered nothing.
    pub fn new(alloc: Global) -> Meter {
        Meter {
            answers: Mutex::new(Answers::new(alloc)),
            syncs: Mutex::new(Durations::NONE),
            compactions: Mutex::new(Compactions {
                made: 0,
                failed: 0,
                waited: 0,
                longest: 0,
            }),
            position: AtomicU64::new(0),
            bytes: AtomicU64::new(0),
        }
    }

    /// Counts an answer to a request of a kind, which took this many microseconds. Without memory
    /// for a row of its own, it isn't counted.
    pub fn answer<W: Wait>(&self, wait: &W, kind: Kind, reply: &Reply, micros: u64) {
        let mut answers = self.answers.lock(wait);
        let _ = answers.add(kind, reply, micros);
        MutexGuard::unlock(answers);
    }

    /// Counts a request that was refused before it became a call. Without memory for a row of its
    /// own, it isn't counted.
    pub fn refuse<W: Wait>(&self, wait: &W, refusal: &Refusal) {
        let mut answers = self.answers.lock(wait);
        let _ = answers.refuse(refusal);
        MutexGuard::unlock(answers);
    }

    /// Counts a sync of the journal, which took this time.
    pub fn sync<W: Wait>(&self, wait: &W, taken: Duration) {
        let micros = u64::try_from(taken.as_micros()).unwrap_or(u64::MAX);
        let mut syncs = self.syncs.lock(wait);
        syncs.add(micros);
        MutexGuard::unlock(syncs);
    }

    /// Records the journal after an accepted change, or after it was opened.
    pub fn grow(&self, journal: Journal) {
        self.position.fetch_max(journal.position, Ordering::SeqCst);
        self.bytes.store(journal.bytes, Ordering::SeqCst);
    }

    /// Counts a compaction for which requests waited this many milliseconds.
    pub fn compact<W: Wait>(&self, wait: &W, waited: u64) {
        let mut compactions = self.compactions.lock(wait);
        compactions.made = compactions.made.saturating_add(1);
        compactions.waited = compactions.waited.saturating_add(waited);
        compactions.longest = compactions.longest.max(waited);
        MutexGuard::unlock(compactions);
    }

    /// Counts a compaction that failed.
    pub fn fail<W: Wait>(&self, wait: &W) {
        let mut compactions = self.compactions.lock(wait);
        compactions.failed = compactions.failed.saturating_add(1);
        MutexGuard::unlock(compactions);
    }

    /// Returns the numbers in the text format of Prometheus. (Prometheus, 'Exposition formats'.)
    pub fn text<W: Wait>(&self, wait: &W, alloc: Global) -> Result<String, AllocError> {
        let mut text = String::new(alloc);
        let answers = self.answers.lock(wait);
        let added = add_answers(alloc, &mut text, &answers);
        MutexGuard::unlock(answers);
        added?;
        let syncs = self.syncs.lock(wait);
        let durations = *syncs;
        MutexGuard::unlock(syncs);
        add_syncs(alloc, &mut text, &durations)?;
        let compactions = self.compactions.lock(wait);
        let counted = *compactions;
        MutexGuard::unlock(compactions);
        add_compactions(alloc, &mut text, counted)?;
        let journal = Journal {
            position: self.position.load(Ordering::SeqCst),
            bytes: self.bytes.load(Ordering::SeqCst),
        };
        add_journal(alloc, &mut text, journal)?;
        Ok(text)
    }
}
