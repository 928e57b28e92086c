//! Workers: sessions that work concurrently.

ghost use Rattle.std.specs.Prelude.{ℕ, ◌≡◌, ◌<◌, true, false, length, slice_index_or};
ghost use Rattle.tfs_serve.specs.Gate.{IsAdmitted, IsClosed};
ghost use Rattle.tfs_serve.specs.Session.{IsLater};
ghost use Rattle.tfs_serve.specs.Working.{HasWorked, end_of_work};

use crate::gate::Gate;
use crate::serving::work;
use crate::session_desk::Service;
use std::alloc::Global;
use std::net::{OpenListener, TcpStream};
use std::sync::atomic::AtomicBool;
use std::sync::{Mutex, Wait};
use std::thread;
use std::thread::Threads;
use std::time::Clock;
use tfs_connections::Load;
use tfs_records::Sink;
use tfs_shared::{Naming, Session, Shared};

/// A session that works, its gate, and whether its listener failed.
#[derive(Drop)]
pub struct Worker<J: Naming, G: Gate> {
    pub gate: G,
    pub session: Session<J>,
    pub failed: bool,
}

impl<J: Naming, G: Gate> Worker<J, G> {
    /// Works until the gate admits no further connection, or the listener fails.
    fn run<L: OpenListener<Stream = TcpStream>, K: Sink, R: Wait + Clock>(
        &mut self,
        service: &Service<'_, J, K, R>,
        listener: &L,
    )
        ensures later { IsLater self.old.session self.new.session }
        ensures admitted { self.new.failed ≡ true → IsAdmitted (G.told self.new.gate) }
        ensures closed { self.new.failed ≡ false → IsClosed (G.told self.new.gate) }
        ensures worked { HasWorked J.opening (G.told self.old.gate) (G.told self.new.gate) self.old.session self.new.session
            (end_of_work self.new.failed) }
    {
        self.failed = work(service, listener, &mut self.gate, &mut self.session).is_err();
    }
}

/// Runs the workers, concurrently if the system creates the threads. Afterwards each session has
/// seen all that it had seen before. `failed` is set if the worker's listener failed; the gates of
/// all others are closed. A session has changed only by the calls that it answered, and its gate
/// has heard of all of these. At most two pushes of more than 4 MiB are read at the same time.
pub fn work_all<
    L: OpenListener<Stream = TcpStream> + Sync,
    J: Naming + Send + Sync,
    K: Sink + Send,
    G: Gate + Send,
    R: Threads + Wait + Clock + Sync,
>(rt: &R, alloc: Global, listener: &L, workers: &mut [Worker<J, G>], shared: &Shared<J, K>)
    ensures later { (i : ℕ) (d : _) → i < length workers.old
        → IsLater (slice_index_or workers.old i d).session (slice_index_or workers.new i d).session }
    ensures admitted { (i : ℕ) (d : _) → i < length workers.old
        → (slice_index_or workers.new i d).failed ≡ true → IsAdmitted (G.told (slice_index_or workers.new i d).gate) }
    ensures closed { (i : ℕ) (d : _) → i < length workers.old
        → (slice_index_or workers.new i d).failed ≡ false → IsClosed (G.told (slice_index_or workers.new i d).gate) }
    ensures worked { (i : ℕ) (d : _) → i < length workers.old
        → HasWorked J.opening (G.told (slice_index_or workers.old i d).gate) (G.told (slice_index_or workers.new i d).gate)
        (slice_index_or workers.old i d).session (slice_index_or workers.new i d).session (end_of_work (slice_index_or workers.new i d).failed) }
{
    let never = AtomicBool::new(false);
    let even = Mutex::new(());
    let odd = Mutex::new(());
    let load = Load::new(workers.len());
    thread::for_each_mut(
        rt,
        workers,
        16,
        &|number: usize, worker: &mut Worker<J, G>|
            ensures later { IsLater worker.entry.now.session worker.exit.now.session }
            ensures admitted { worker.exit.now.failed ≡ true → IsAdmitted (G.told worker.exit.now.gate) }
            ensures closed { worker.exit.now.failed ≡ false → IsClosed (G.told worker.exit.now.gate) }
            ensures worked { HasWorked J.opening (G.told worker.entry.now.gate) (G.told worker.exit.now.gate) worker.entry.now.session
                worker.exit.now.session (end_of_work worker.exit.now.failed) }
        {
            let turn = if number % 2 == 0 { &even } else { &odd };
            let service = Service {
                rt,
                alloc,
                shared,
                turn,
                ended: &never,
                muted: &never,
                load: &load,
            };
            worker.run(&service, listener)
        },
    );
}
