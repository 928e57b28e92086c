//! The times of a connection.

use crate::limits::{
    MAX_ENDING_SECONDS, MAX_PARKED_SECONDS, MAX_REQUEST_SECONDS, MAX_TURN_MILLISECONDS,
    MAX_WAIT_SECONDS, idle_limit, is_late, reply_limit, slow_limit,
};
use crate::load::Load;
use crate::parked::ParkedConnections;
use crate::paused::{Begun, Paused};
use std::cell::Cell;
use std::sync::Arc;
use std::sync::atomic::{AtomicBool, Ordering};
use std::time::{Clock, Duration};

/// The stage of a connection.
#[derive(Clone, Copy)]
enum Stage {
    /// Nothing has come yet.
    Fresh,
    /// A request is being read: when its first byte came, and how many bytes have come.
    Request(Duration, u64),
    /// Replies are being written: when the first one was begun, and how many bytes were written.
    /// After them the connection waits for the next request.
    Replies(Duration, u64),
}

/// The times of one connection, shared by its reading and its writing end.
///
/// They are: the stage; since when replies have waited for the client, and how many bytes were
/// written by then, which the system's buffers took; whether the client counts as slow; whether
/// conversations are to end, and when that was first seen; whether nothing more is to be written; the
/// turn, if another one can resume the conversation, and whether one has to. If the clock fails, no
/// time passes.
#[derive(Drop)]
pub struct Timing<'r, 'e, R: Clock> {
    rt: &'r R,
    ended: &'e AtomicBool,
    muted: &'e AtomicBool,
    load: &'e Load,
    stage: Cell<Stage>,
    held: Cell<Option<(Duration, u64)>>,
    /// The place of the client among those that are slow.
    slow: Cell<Option<usize>>,
    told: Cell<Option<Duration>>,
    turn: Option<Turn>,
    is_paused: Cell<bool>,
}

/// A turn of a conversation that another one can resume: when it began, and where its connection can
/// wait.
#[derive(Drop)]
struct Turn {
    began: Duration,
    place: Arc<ParkedConnections>,
}

impl<'r, 'e, R: Clock> Timing<'r, 'e, R> {
    /// Makes the times of a connection on which nothing has come.
    pub fn new(
        rt: &'r R,
        ended: &'e AtomicBool,
        muted: &'e AtomicBool,
        load: &'e Load,
    ) -> Timing<'r, 'e, R> {
        Timing {
            rt,
            ended,
            muted,
            load,
            stage: Cell::new(Stage::Fresh),
            held: Cell::new(None),
            slow: Cell::new(None),
            told: Cell::new(None),
            turn: None,
            is_paused: Cell::new(false),
        }
    }

    /// Has reading pause rather than wait for the client, so that another turn resumes the
    /// conversation, while the connection waits at `place`. `begun` is the request that earlier turns
    /// have begun to read, if there is one.
    pub(crate) fn outlast(&mut self, begun: Option<Begun>, place: Arc<ParkedConnections>) {
        let began = self.now();
        self.turn = Some(Turn { began, place });
        if let Some(Begun { since, bytes }) = begun {
            self.stage.set(Stage::Request(since, bytes));
        }
    }

    /// Returns true if reading paused, and another turn resumes the conversation.
    pub(crate) fn is_paused(&self) -> bool {
        self.is_paused.get()
    }

    /// Returns how the request that is being read has begun.
    pub(crate) fn begun(&self) -> Begun {
        match self.stage.get() {
            Stage::Request(since, bytes) => Begun { since, bytes },
            Stage::Fresh | Stage::Replies(_, _) => Begun {
                since: self.now(),
                bytes: 0,
            },
        }
    }

    /// Returns when to close a connection with a paused conversation if nothing has come by then.
    pub(crate) fn until(&self, paused: &Paused) -> Duration {
        match paused {
            Paused::Between(_) => later(self.now(), MAX_PARKED_SECONDS),
            Paused::Within(_, begun) => {
                later(self.now(), MAX_WAIT_SECONDS).min(later(begun.since, MAX_REQUEST_SECONDS))
            }
        }
    }

    /// Returns the current time, or zero if the clock fails.
    pub(crate) fn now(&self) -> Duration {
        match self.rt.monotonic() {
            Ok(now) => now,
            Err(_) => Duration::ZERO,
        }
    }

    /// Returns true if nothing more is to be read: a request takes too long, its slow client is
    /// dropped in favour of others, conversations are to end and the next request would be read, or
    /// another turn resumes the conversation.
    pub(crate) fn ends_reading(&self) -> bool {
        match self.stage.get() {
            Stage::Fresh => false,
            Stage::Request(began, read) => {
                self.is_past(began, MAX_REQUEST_SECONDS)
                    || self.lasts() && self.interrupts()
                    || self.is_given_up()
                    || !self.lasts() && self.is_left_for_others(began, read)
            }
            Stage::Replies(_, _) => {
                self.end_slow();
                self.interrupts() || self.yields()
            }
        }
    }

    /// Returns true if a read that has waited since `since` is to stop waiting.
    pub(crate) fn ends_waiting(&self, since: Duration) -> bool {
        if self.lasts() {
            self.is_paused.set(true);
            return true;
        }
        match self.stage.get() {
            Stage::Request(_, _) => self.is_past(since, MAX_WAIT_SECONDS) || self.ends_reading(),
            Stage::Fresh | Stage::Replies(_, _) => {
                self.interrupts() || is_late(since, self.now(), idle_limit(self.load.is_crowded()))
            }
        }
    }

    /// Returns true if nothing more is to be written: to any client, or of replies with `rest`
    /// bytes left to write, because they take too long or their slow client is dropped in favour of
    /// others.
    pub(crate) fn ends_writing(&self, rest: usize) -> bool {
        if self.muted.load(Ordering::SeqCst) {
            return true;
        }
        match self.stage.get() {
            Stage::Replies(began, written) => {
                let limit = reply_limit(written.saturating_add(rest as u64));
                is_late(began, self.now(), limit)
                    || self.is_given_up()
                    || self.is_read_too_slowly(written)
            }
            Stage::Fresh | Stage::Request(_, _) => false,
        }
    }

    /// Returns true if a write that has waited since `since` is to stop waiting.
    pub(crate) fn ends_waiting_to_write(&self, since: Duration, rest: usize) -> bool {
        self.hold(since);
        self.is_past(since, MAX_WAIT_SECONDS) || self.ends_writing(rest)
    }

    /// Records that `count` bytes of a request have come.
    pub(crate) fn note_read(&self, count: usize) {
        let (began, read) = match self.stage.get() {
            Stage::Request(began, read) => (began, read),
            Stage::Fresh | Stage::Replies(_, _) => (self.now(), 0),
        };
        let read = read.saturating_add(count as u64);
        self.stage.set(Stage::Request(began, read));
    }

    /// Records that `count` bytes of a reply were written; 0 when a reply starts.
    pub(crate) fn note_written(&self, count: usize) {
        let (began, written) = match self.stage.get() {
            Stage::Replies(began, written) => (began, written),
            Stage::Fresh | Stage::Request(_, _) => {
                self.held.set(None);
                (self.now(), 0)
            }
        };
        let written = written.saturating_add(count as u64);
        self.stage.set(Stage::Replies(began, written));
    }

    /// Stops counting the client as slow, because it is no longer slow or is gone.
    pub fn end_slow(&self) {
        if let Some(place) = self.slow.replace(None) {
            self.load.end_slow(place);
        }
    }

    /// Records that replies wait for the client since `since`, unless they have waited before.
    fn hold(&self, since: Duration) {
        if let (None, Stage::Replies(_, written)) = (self.held.get(), self.stage.get()) {
            self.held.set(Some((since, written)));
        }
    }

    /// Returns true if a client reads replies too slowly and is to be dropped in favour of others.
    /// `written` bytes of them were written.
    fn is_read_too_slowly(&self, written: u64) -> bool {
        match self.held.get() {
            Some((since, before)) => {
                self.is_left_for_others(since, written.saturating_sub(before))
            }
            None => false,
        }
    }

    /// Returns true if a client is slow and is to be dropped in favour of others. `bytes` bytes
    /// were transferred since `began`.
    fn is_left_for_others(&self, began: Duration, bytes: u64) -> bool {
        if !is_late(began, self.now(), slow_limit(bytes, self.crowd())) {
            self.end_slow();
            return false;
        }
        let place = match self.slow.get() {
            Some(place) => place,
            None => {
                let Some(place) = self.load.begin_slow(nanoseconds(began)) else {
                    return false;
                };
                self.slow.set(Some(place));
                place
            }
        };
        let is_left = self.load.leaves_slow(place);
        if is_left {
            self.end_slow();
        }
        is_left
    }

    /// Returns how many clients wait for a worker, as far as that is known.
    fn crowd(&self) -> u64 {
        match &self.turn {
            Some(Turn { place, .. }) if self.load.is_crowded() => place.crowd(),
            Some(_) | None => 0,
        }
    }

    /// Returns true if more than `seconds` seconds have passed since `since`.
    fn is_past(&self, since: Duration, seconds: u64) -> bool {
        is_late(since, self.now(), Duration::from_secs(seconds))
    }

    /// Returns true if conversations are to end.
    fn is_to_end(&self) -> bool {
        self.ended.load(Ordering::SeqCst)
    }

    /// Returns true if another turn can resume the conversation.
    fn lasts(&self) -> bool {
        self.turn.is_some()
    }

    /// Returns true if conversations are to end, and notes whether another turn resumes this one.
    fn interrupts(&self) -> bool {
        let is_to_end = self.is_to_end();
        if is_to_end && self.lasts() {
            self.is_paused.set(true);
        }
        is_to_end
    }

    /// Returns true if a turn has lasted long enough and no worker is free, and notes that another
    /// turn resumes the conversation.
    fn yields(&self) -> bool {
        let Some(Turn { began, .. }) = &self.turn else {
            return false;
        };
        let limit = Duration::from_millis(MAX_TURN_MILLISECONDS);
        let yields = self.load.is_crowded() && is_late(*began, self.now(), limit);
        if yields {
            self.is_paused.set(true);
        }
        yields
    }

    /// Returns true if conversations are to end, and the time left to what is in progress has
    /// passed since that was first seen.
    fn is_given_up(&self) -> bool {
        if !self.is_to_end() {
            return false;
        }
        match self.told.get() {
            Some(told) => self.is_past(told, MAX_ENDING_SECONDS),
            None => {
                self.told.set(Some(self.now()));
                false
            }
        }
    }
}

/// Returns a time in nanoseconds, at most those of 500 years.
fn nanoseconds(time: Duration) -> u64 {
    u64::try_from(time.as_nanos()).unwrap_or(u64::MAX)
}

/// Returns the time so many seconds after another.
fn later(time: Duration, seconds: u64) -> Duration {
    time.saturating_add(Duration::from_secs(seconds))
}
