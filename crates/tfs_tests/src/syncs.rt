//! Appends that one sync makes durable, over a device in memory that loses what wasn't synced.

use std::alloc::Global;
use std::process::Abort;
use std::sync::Wait;
use std::sync::atomic::{AtomicU64, Ordering};
use std::time::Clock;
use tfs_durable::{Counted, Device, SyncFault, Tail};
use tfs_records::{Out, Sink, SinkFault};

/// The number of bytes of a file, and the number of them that are left after a power cut.
#[derive(Drop)]
struct Disk {
    written: AtomicU64,
    left: AtomicU64,
}

/// A device that syncs a disk this often, and then fails.
#[derive(Drop)]
struct Syncs<'d> {
    disk: &'d Disk,
    calls: u64,
    has_failed: bool,
}

impl<'d> Device for Syncs<'d> {
    ghost written = { λ _. Unit {0} };

    ghost synced = { λ _. Unit {0} };

    ghost failed = { λ device. device.has_failed };

    fn sync(&mut self, _count: u64) -> Result<(), SyncFault> {
        if self.calls == 0 {
            self.has_failed = true;
            return Err(SyncFault);
        }
        self.calls -= 1;
        let written = self.disk.written.load(Ordering::SeqCst);
        self.disk.left.store(written, Ordering::SeqCst);
        Ok(())
    }
}

/// A sink that writes to a disk.
#[derive(Drop)]
struct Writes<'d>(&'d Disk);

impl<'d> Sink for Writes<'d> {
    ghost use Rattle.std.specs.Prelude.{None};

    ghost told = { λ _. None };

    ghost faults = { λ _. 0 };

    fn write(&mut self, piece: &[u8]) -> Result<usize, SinkFault> {
        let count = piece.len() as u64;
        self.0.written.fetch_add(count, Ordering::SeqCst);
        Ok(piece.len())
    }
}

impl<'d> Tail<Syncs<'d>> for Writes<'d> {
    fn length(&self) -> u64 {
        self.0.written.load(Ordering::SeqCst)
    }
}

/// Makes appends over a disk whose device syncs at most `syncs` times, and waits for every third
/// one. Returns the number of bytes reported as durable, and the number left after a power cut.
/// After a failed sync, the first bytes don't count as durable any more either.
fn run(rt: &(impl Wait + Clock + Abort), alloc: Global, appends: u64, syncs: u64) -> (u64, u64) {
    let disk = Disk {
        written: AtomicU64::new(0),
        left: AtomicU64::new(0),
    };
    let device = Syncs {
        disk: &disk,
        calls: syncs,
        has_failed: false,
    };
    let counted = Counted::new(alloc, Writes(&disk), device).ok();
    let mut out = Out::new(counted.expect(rt, "memory"));
    let mut told = 0;
    for turn in 0..appends {
        assert!(rt; out.append(b"piece").is_ok());
        if turn % 3 == 2 {
            let durable = out.sink().durable();
            let count = durable.written();
            let is_durable = durable.cover(rt, count).is_ok();
            assert!(rt; durable.cover(rt, 1).is_ok() == is_durable);
            if is_durable {
                told = count;
            }
        }
    }
    (told, disk.left.load(Ordering::SeqCst))
}

#[test]
fn what_is_covered_is_left_after_each_cut(rt: HostRuntime) {
    for appends in 0..20 {
        let all = run(&rt, rt.alloc(), appends, 9);
        assert!(rt; all == (appends / 3 * 15, appends / 3 * 15));
        let few = run(&rt, rt.alloc(), appends, 2);
        assert!(rt; few.0 == few.1 && few.0 == (appends / 3).min(2) * 15);
    }
}
