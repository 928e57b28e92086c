//! Three threads that write and wait for a sync, in every order of their steps, over a device whose
//! syncs end on command.

use crate::orders::ORDERS;
use std::alloc::Global;
use std::process::Abort;
use std::sync::atomic::{AtomicU64, Ordering};
use std::sync::{Arc, Mutex, Wait};
use std::thread;
use std::time::{Clock, Duration};
use tfs_durable::{Counted, Device, Durable, SyncFault, Tail};
use tfs_records::{Sink, SinkFault};

/// The outcome of a thread's steps so far: nothing, its byte is written, it waits, the byte is
/// durable, the sync has failed.
const OUTCOMES: [&str; 5] = [".", "=", "~", "+", "-"];

const WRITTEN: u64 = 1;

const WAITS: u64 = 2;

const DURABLE: u64 = 3;

const REFUSED: u64 = 4;

/// The number of steps that a thread may take, and their outcome.
#[derive(Drop)]
struct Actor {
    allowed: AtomicU64,
    outcome: AtomicU64,
}

impl Actor {
    /// Returns an actor that may take no step.
    fn new() -> Actor {
        Actor {
            allowed: AtomicU64::new(0),
            outcome: AtomicU64::new(0),
        }
    }

    /// Returns the sign of the outcome.
    fn sign(&self) -> &'static str {
        let outcome = self.outcome.load(Ordering::SeqCst) as usize;
        OUTCOMES.get(outcome).copied().unwrap_or("?")
    }
}

/// The state that three threads and their device share: how many bytes are written, how many of
/// them a power cut leaves, how many syncs have begun, how many may end, the number of the sync
/// that fails, and a count of bytes that weren't written when a sync was requested for them.
#[derive(Drop)]
struct Stage {
    first: Actor,
    second: Actor,
    third: Actor,
    written: AtomicU64,
    left: AtomicU64,
    begun: AtomicU64,
    ended: AtomicU64,
    failed: AtomicU64,
    unwritten: AtomicU64,
}

impl Stage {
    /// Returns a stage on which nothing has happened.
    fn new() -> Stage {
        Stage {
            first: Actor::new(),
            second: Actor::new(),
            third: Actor::new(),
            written: AtomicU64::new(0),
            left: AtomicU64::new(0),
            begun: AtomicU64::new(0),
            ended: AtomicU64::new(0),
            failed: AtomicU64::new(0),
            unwritten: AtomicU64::new(0),
        }
    }

    /// Returns the outcome of each thread's steps, and the number of syncs that have begun.
    fn outcomes(&self, rt: &(impl Alloc<A = Global> + Abort)) -> String {
        let (first, second, third) = (self.first.sign(), self.second.sign(), self.third.sign());
        let begun = self.begun.load(Ordering::SeqCst);
        let shown = format!(in rt.alloc(); "{first}{second}{third}{begun}");
        shown.expect(rt, "memory")
    }

    /// Allows a step: the next one of a thread by its number, or the end of the sync that has
    /// begun, with success or failure.
    fn allow(&self, step: &str) {
        match step {
            "0" => allow_more(&self.first.allowed),
            "1" => allow_more(&self.second.allowed),
            "2" => allow_more(&self.third.allowed),
            "-" => {
                self.failed
                    .store(self.begun.load(Ordering::SeqCst), Ordering::SeqCst);
                allow_more(&self.ended);
            }
            _ => allow_more(&self.ended),
        }
    }
}

/// Raises a count by one.
fn allow_more(count: &AtomicU64) {
    count.fetch_add(1, Ordering::SeqCst);
}

/// Pauses for a moment, in which other threads continue.
fn pause(rt: &impl Clock) {
    thread::sleep(rt, Duration::from_micros(50));
}

/// Waits until a count has reached a number. Returns false if it hasn't after 400,000 moments.
fn reaches(rt: &impl Clock, count: &AtomicU64, least: u64) -> bool {
    for _turn in 0..400_000 {
        if least <= count.load(Ordering::SeqCst) {
            return true;
        }
        pause(rt);
    }
    false
}

/// A device that syncs what was written before the call, once it may.
#[derive(Drop)]
struct Told<'s> {
    rt: &'s HostRuntime,
    stage: &'s Stage,
    has_failed: bool,
}

impl<'s> Device for Told<'s> {
    ghost written = { λ _. Unit {0} };

    ghost synced = { λ _. Unit {0} };

    ghost failed = { λ device. device.has_failed };

    fn sync(&mut self, count: u64) -> Result<(), SyncFault> {
        let written = self.stage.written.load(Ordering::SeqCst);
        if written < count {
            self.stage.unwritten.store(count, Ordering::SeqCst);
        }
        let before = self.stage.begun.fetch_add(1, Ordering::SeqCst);
        let number = before.saturating_add(1);
        let may_end = reaches(self.rt, &self.stage.ended, number);
        if !may_end || self.stage.failed.load(Ordering::SeqCst) == number {
            self.has_failed = true;
            return Err(SyncFault);
        }
        self.stage.left.store(written, Ordering::SeqCst);
        Ok(())
    }
}

/// A sink that counts the bytes written to it.
#[derive(Drop)]
struct Writes<'s>(&'s Stage);

impl<'s> Sink for Writes<'s> {
    ghost use Rattle.std.specs.Prelude.{None};

    ghost told = { λ _. None };

    ghost faults = { λ _. 0 };

    fn write(&mut self, piece: &[u8]) -> Result<usize, SinkFault> {
        self.0
            .written
            .fetch_add(piece.len() as u64, Ordering::SeqCst);
        Ok(piece.len())
    }
}

impl<'s> Tail<Told<'s>> for Writes<'s> {
    fn length(&self) -> u64 {
        self.0.written.load(Ordering::SeqCst)
    }
}

/// What the threads of an order use.
#[derive(Drop)]
struct Scene<'s> {
    stage: &'s Stage,
    journal: Mutex<Counted<Writes<'s>, Told<'s>>>,
    durable: Arc<Durable<Told<'s>>>,
}

/// Returns a scene on which nothing is written.
fn scene_of<'s>(abort: &impl Abort, rt: &'s HostRuntime, stage: &'s Stage) -> Scene<'s> {
    let device = Told {
        rt,
        stage,
        has_failed: false,
    };
    let counted = Counted::new(rt.alloc(), Writes(stage), device).ok();
    let counted = counted.expect(abort, "memory");
    let durable = counted.durable().clone().ok().expect(abort, "memory");
    Scene {
        stage,
        journal: Mutex::new(counted),
        durable,
    }
}

impl<'s> Scene<'s> {
    /// Writes a byte, and returns how many are written.
    fn write(&self, rt: &(impl Wait + Abort)) -> u64 {
        let mut journal = self.journal.lock(rt);
        assert!(rt; journal.write(b"x") == Ok(1));
        self.stage.written.load(Ordering::SeqCst)
    }

    /// Takes the two steps of a thread: writes a byte, and waits until it is durable. Then checks
    /// that a power cut leaves the byte.
    fn act(&self, rt: &(impl Wait + Clock + Abort), actor: &Actor) {
        assert!(rt; reaches(rt, &actor.allowed, 1));
        let own = self.write(rt);
        let count = self.durable.written();
        actor.outcome.store(WRITTEN, Ordering::SeqCst);
        assert!(rt; reaches(rt, &actor.allowed, 2));
        actor.outcome.store(WAITS, Ordering::SeqCst);
        let is_durable = self.durable.cover(rt, count).is_ok();
        let left = self.stage.left.load(Ordering::SeqCst);
        assert!(rt;
            !is_durable || own <= left,
            "{own} bytes are reported as durable, {left} are left"
        );
        let outcome = if is_durable { DURABLE } else { REFUSED };
        actor.outcome.store(outcome, Ordering::SeqCst);
    }

    /// Allows one step after another, and waits for the expected outcome of each.
    fn direct(&self, rt: &(impl Clock + Abort + Alloc<A = Global>), line: &str) {
        for word in line.split(' ') {
            let (step, wanted) = word.split_once(':').expect(rt, "a step");
            self.stage.allow(step);
            self.wait_until(rt, wanted, line);
        }
    }

    /// Waits until this is shown, and then for a moment, in which a thread that must wait begins
    /// to.
    fn wait_until(&self, rt: &(impl Clock + Abort + Alloc<A = Global>), wanted: &str, line: &str) {
        for _turn in 0..100_000 {
            if self.stage.outcomes(rt).as_str() == wanted {
                pause(rt);
                return;
            }
            pause(rt);
        }
        let shown = self.stage.outcomes(rt);
        panic!(rt; "{shown}, and {wanted} is wanted in {line}");
    }

    /// Plays the part of a thread by its number: three act, and the last one directs.
    fn play(
        &self,
        rt: &(impl Wait + Clock + Abort + Alloc<A = Global>),
        number: usize,
        line: &str,
    ) {
        match number {
            0 => self.act(rt, &self.stage.first),
            1 => self.act(rt, &self.stage.second),
            2 => self.act(rt, &self.stage.third),
            _ => self.direct(rt, line),
        }
    }
}

/// Checks that the end shows the same as the last step, and that no sync was requested for bytes
/// that weren't written.
fn expect_end(rt: &(impl Abort + Alloc<A = Global>), stage: &Stage, line: &str) {
    let (_, wanted) = line.rsplit_once(':').expect(rt, "a step");
    assert!(rt; stage.outcomes(rt).as_str() == wanted, "{line}");
    assert!(rt; stage.unwritten.load(Ordering::SeqCst) == 0, "{line}");
}

#[test]
fn what_is_reported_as_durable_is_synced_in_every_order(rt: HostRuntime) {
    for line in ORDERS.lines() {
        let stage = Stage::new();
        let scene = scene_of(&rt, &rt, &stage);
        let mut places = [0_u8; 4];
        thread::for_each_mut(
            &rt,
            &mut places,
            4,
            &|number, _| scene.play(&rt, number, line),
        );
        expect_end(&rt, &stage, line);
    }
}
