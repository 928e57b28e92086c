//! A hold that can't make the bytes of a later journal durable: the replies that need them are
//! withheld, and the earlier ones stay.

use crate::connections::{asking, is_answered, listener_of};
use crate::texts::{PUSH_AND_READ, REPLIES};
use std::alloc::Global;
use std::net::TcpListener;
use std::process::Abort;
use std::sync::Wait;
use std::sync::atomic::{AtomicBool, AtomicU64, Ordering};
use std::test::Fail;
use std::thread::Threads;
use std::time::Clock;
use tfs_calls::{Call, Reply};
use tfs_records::MemorySink;
use tfs_serve::{Client, Gate, Hold, Run, Runtime, serve_until};
use tfs_table::Table;

/// A push of a state to `b`, and a read of `a`.
const PUSH_ANOTHER: &str = "POST /state/b HTTP/1.1\r\nHost: h\r\nContent-Length: 41\r\n\r\n\
{\"version\":4, \"serial\":1 ,\"lineage\":\"L1\"}\
GET /state/a HTTP/1.1\r\nHost: h\r\n\r\n";

/// A hold that covers the first mark that it is asked for, and no greater one. It counts the
/// refused marks.
#[derive(Drop)]
struct FirstMark {
    first: AtomicU64,
    refused: AtomicU64,
}

impl Hold for FirstMark {
    ghost use Rattle.std.specs.Prelude.{ℕ};

    ghost durable = { λ mark. Unit {0} };

    ghost recorded = { λ position number. Unit {0} };

    ghost made = { λ number. Unit {0} };

    fn synced(&self) -> u64 {
        0
    }

    fn cover(&self, mark: u64) -> bool {
        let first = self.first.load(Ordering::SeqCst);
        if first == 0 {
            self.first.store(mark, Ordering::SeqCst);
            return true;
        }
        if first < mark {
            self.refused.fetch_add(1, Ordering::SeqCst);
        }
        mark <= first
    }

    fn record(&self, _position: u64, _client: Client<'_>) -> u64 {
        0
    }

    fn finish(&self, _number: u64) {}
}

/// A gate that admits one connection.
#[derive(Drop)]
struct OneConnection {
    is_open: bool,
}

impl Gate for OneConnection {
    ghost use Rattle.std.specs.Prelude.{None};

    ghost told = { λ gate. None };

    fn admit(&mut self) -> bool {
        let admits = self.is_open;
        self.is_open = false;
        admits
    }

    fn before(&mut self, _call: &Call) {}

    fn after(&mut self, _reply: &Reply) {}
}

/// Serves one connection of the listener over a new table with this hold. Returns the number of the
/// table's entries then.
fn serve_one<R: Threads + Wait + Clock + Abort + Alloc<A = Global> + Sync>(
    rt: &R,
    hold: &FirstMark,
    listener: TcpListener,
) -> usize {
    let never = AtomicBool::new(false);
    let runtime = Runtime {
        rt,
        alloc: rt.alloc(),
        hold,
        ended: &never,
        muted: &never,
    };
    let sink = MemorySink::new(rt.alloc(), usize::MAX, u64::MAX);
    let table = Table::new(rt.alloc(), sink).ok().expect(rt, "a table");
    let gates = vec![in rt.alloc(); OneConnection { is_open: true }];
    let gates = gates.ok().expect(rt, "gates");
    let run = serve_until(&runtime, table, gates, || Ok::<TcpListener, u8>(listener));
    let Run { table, .. } = run.ok().expect(rt, "a run");
    table.len()
}

#[test]
fn a_withheld_reply_is_the_last_and_not_written(rt: HostRuntime) -> Result<(), Fail> {
    let listener = listener_of(&rt);
    let requests = format!(in rt.alloc(); "{PUSH_AND_READ}{PUSH_ANOTHER}")?;
    let stream = asking(&rt, &listener, requests.as_str());
    let hold = FirstMark {
        first: AtomicU64::new(0),
        refused: AtomicU64::new(0),
    };
    assert!(rt; serve_one(&rt, &hold, listener) == 2);
    assert!(rt; hold.refused.load(Ordering::SeqCst) == 1);
    is_answered(&rt, stream, REPLIES);
    Ok(())
}
