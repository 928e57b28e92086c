//! A run that doesn't begin, and a gate that admits nobody.

ghost use Rattle.std.specs.Prelude.{◌≡◌, [], length};
ghost use Rattle.tfs_serve.specs.Heard.{events_of};

use crate::shared::table_of;
use std::net::TcpListener;
use std::process::Abort;
use std::test::Fail;
use tfs_calls::{Call, Reply};
use tfs_records::Discard;
use tfs_serve::{Gate, Heard, Obstacle, Unserved, serve};

/// A gate that admits nobody, and records what it hears for proofs.
#[derive(Drop)]
pub(crate) struct Shut {
    pub(crate) heard: Heard,
}

impl Shut {
    /// Returns a gate that has heard of nothing.
    pub(crate) fn new() -> Shut
        ensures { events_of result.heard ≡ [] }
    {
        Shut {
            heard: Heard::new(),
        }
    }
}

impl Gate for Shut {
    ghost use Rattle.std.specs.Prelude.{Some};
    ghost use Rattle.tfs_serve.specs.Heard.{events_of};

    ghost told = { λ gate. Some (events_of gate.heard) };

    fn admit(&mut self) -> bool {
        self.heard.record_answer(false);
        false
    }

    fn before(&mut self, call: &Call) {
        self.heard.record_call(call);
    }

    fn after(&mut self, reply: &Reply) {
        self.heard.record_reply(reply);
    }
}

#[test]
fn a_table_without_a_listener_comes_back(rt: HostRuntime) -> Result<(), Fail> {
    let gates = vec![in rt.alloc(); Shut::new()]?;
    let table = table_of(&rt, Discard, 1);
    let made = serve(&rt, rt.alloc(), table, gates, || Err::<TcpListener, u8>(7));
    is_unserved(&rt, made.err());
    Ok(())
}

/// Checks that the run had no listener, for this reason, and that the table has its entry.
fn is_unserved(rt: &impl Abort, unserved: Option<Unserved<Discard, u8>>) {
    let unserved = unserved.expect(rt, "no run");
    assert!(rt; matches!(unserved.why, Obstacle::NoListener(7)) && unserved.table.len() == 1);
}
