//! The bytes that a table gives its sink before the first change.

ghost use Rattle.std.specs.Prelude.{◌≡◌, false};

use std::process::Abort;
use tfs_records::{Sink, SinkFault};
use tfs_table::Table;

/// A sink that takes no bytes, and fails if it is given any.
#[derive(Drop)]
struct Closed {
    has_failed: bool,
}

impl Closed {
    /// Returns a sink that was given nothing.
    fn new() -> Closed
        ensures open { result.has_failed ≡ false }
    {
        Closed { has_failed: false }
    }
}

impl Sink for Closed {
    ghost use Rattle.std.specs.Prelude.{None, if◌then◌else◌};

    ghost told = { λ _. None };

    ghost faults = { λ s. if s.has_failed then 1 else 0 };

    fn write(&mut self, _piece: &[u8]) -> Result<usize, SinkFault> {
        self.has_failed = true;
        Err(SinkFault)
    }

    fn takes_bytes(&self) -> bool {
        false
    }
}

#[test]
fn a_sink_that_takes_no_bytes_is_given_none_when_a_table_begins(rt: HostRuntime) {
    let made = Table::new(rt.alloc(), Closed::new());
    assert!(rt; made.is_ok());
    let opened = Table::open(rt.alloc(), b"TFJ1\n", Closed::new());
    let (table, _) = opened.ok().expect(&rt, "a table");
    assert!(rt; table.rebase(Closed::new()).is_ok());
}
