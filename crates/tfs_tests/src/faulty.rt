//! Tables over a sink that takes 50 bytes a call and fails after some calls, and tables that are
//! opened from bytes. The texts are those of `src/journals.rt`.

ghost use Rattle.std.specs.Prelude.{◌≡◌, [], false};

use crate::drafts::{lock_of, name_of, push_of_text, query_of};
use crate::journals::front_of;
use crate::lines::{Judge, expect_lines, expect_words, number_in, split};
use std::alloc::{AllocError, Global};
use std::process::Abort;
use tfs_calls::{Kind, Refusal};
use tfs_records::MemorySink;
use tfs_table::Table;

/// Two states of one lineage, of 41 bytes each.
const S1: &str = "{\"version\":4, \"serial\":1 ,\"lineage\":\"L1\"}";

const S2: &str = "{\"version\":4, \"serial\":2 ,\"lineage\":\"L1\"}";

/// Returns a sink that takes 50 bytes a call, for this number of calls.
fn sink_of(alloc: Global, calls: u64) -> MemorySink
    ensures { (result.has_failed ≡ false) × (result.bytes ≡ []) }
{
    MemorySink::new(alloc, 50, calls)
}

/// Returns the answer to a change as one word.
fn word_of(answer: Result<u64, Refusal>) -> &'static str {
    match answer {
        Ok(_) => "Done",
        Err(refusal) => refusal.name(),
    }
}

/// Pushes a state to `a`, and returns the answer as one word.
fn push_state(
    rt: &(impl Alloc<A = Global> + Abort),
    table: &mut Table<MemorySink>,
    text: &str,
) -> &'static str {
    word_of(table.apply(name_of(rt), push_of_text(rt, text)))
}

/// Returns the serial of the state of `a`, or the refusal.
fn serial_in(
    rt: &(impl Alloc<A = Global> + Abort),
    table: &Table<MemorySink>,
) -> Result<String, AllocError> {
    match table.state(&name_of(rt)) {
        Ok(doc) => {
            let serial = doc.serial();
            format!(in rt.alloc(); "{serial}")
        }
        Err(refusal) => {
            let name = refusal.name();
            format!(in rt.alloc(); "{name}")
        }
    }
}

/// Opens a table from bytes, and returns its number of entries, how the bytes end, and the length
/// of its own journal; or the fault.
fn open_and_describe(alloc: Global, bytes: &[u8]) -> Result<String, AllocError> {
    match Table::open(alloc, bytes, sink_of(alloc, 100)) {
        Ok((table, end)) => {
            let (entries, length) = (table.len(), table.sink().bytes().len());
            format!(in alloc; "{entries} {end:?} {length}")
        }
        Err(fault) => format!(in alloc; "{fault:?}"),
    }
}

/// Pushes two states to a table and reads one. Returns the answers, the length of its journal, and
/// how that opens.
fn answers_of(
    rt: &(impl Alloc<A = Global> + Abort),
    table: &mut Table<MemorySink>,
) -> Result<String, AllocError> {
    let first = push_state(rt, table, S1);
    let second = push_state(rt, table, S2);
    let serial = serial_in(rt, table)?;
    let bytes = table.sink().bytes();
    let opened = open_and_describe(rt.alloc(), bytes)?;
    let length = bytes.len();
    format!(in rt.alloc(); "{first} {second} {serial} {length} {opened}")
}

/// Returns the answers of a table whose sink takes this number of calls.
fn faulty(rt: &(impl Alloc<A = Global> + Abort), calls: u64) -> Result<String, AllocError> {
    match Table::new(rt.alloc(), sink_of(rt.alloc(), calls)) {
        Ok(mut table) => answers_of(rt, &mut table),
        Err(fault) => format!(in rt.alloc(); "{fault:?}"),
    }
}

/// Lines with a number of calls, and then the answers to a push of S1, a push of S2 and a read, the
/// length of the journal, and how it opens.
struct Calls;

impl Judge for Calls {
    fn judge(rt: &(impl Alloc<A = Global> + Abort), given: &str, wanted: &str) {
        expect_words(rt, faulty(rt, number_in(rt, given)), wanted);
    }
}

const CALLS: &str = "0 = SinkFault
1 = JournalFault JournalStopped NoState 31 0 Whole 31
2 = JournalFault JournalStopped NoState 81 0 Torn(31) 31
3 = Done JournalFault 1 97 1 Whole 97
4 = Done JournalFault 1 147 1 Torn(97) 97
5 = Done Done 2 163 2 Whole 163";

#[test]
fn a_sink_that_fails_after_some_calls_stops_its_table(rt: HostRuntime) {
    expect_lines::<Calls>(&rt, CALLS);
}

/// Lines with the length of a journal and a number of its first bytes, and then how a table opens
/// from these bytes.
struct Fronts;

impl Judge for Fronts {
    fn judge(rt: &(impl Alloc<A = Global> + Abort), given: &str, wanted: &str) {
        let (length, count) = split(given);
        let bytes = front_of(rt, length, count);
        expect_words(rt, open_and_describe(rt.alloc(), bytes.as_slice()), wanted);
    }
}

const FRONTS: &str = "104 104 = 2 Whole 130
104 90 = 1 Torn(71) 97
104 71 = 1 Whole 97
104 70 = 0 Torn(5) 31
104 4 = 0 Torn(0) 31
130 130 = 2 Whole 130
130 129 = 1 Torn(97) 97
92 92 = 0 Whole 92
92 50 = TornBase
changed 104 = Damaged(5)
137 137 = Unlawful(2)";

#[test]
fn a_table_reports_how_the_bytes_end_that_it_opens(rt: HostRuntime) {
    expect_lines::<Fronts>(&rt, FRONTS);
}

/// Asks a stopped table for a lock, a read and a query. Returns the answers and its position.
fn ask_stopped(
    rt: &(impl Alloc<A = Global> + Abort),
    table: &mut Table<MemorySink>,
) -> Result<String, AllocError> {
    let lock = word_of(table.apply(name_of(rt), lock_of(rt)));
    let serial = serial_in(rt, table)?;
    let query = match table.impact(&name_of(rt), &query_of(rt, Kind::Any)) {
        Ok(_) => "Impact",
        Err(refusal) => refusal.name(),
    };
    let position = table.position();
    format!(in rt.alloc(); "{lock} {serial} {query} {position}")
}

#[test]
fn a_stopped_table_answers_what_changes_nothing(rt: HostRuntime) {
    let made = Table::new(rt.alloc(), sink_of(rt.alloc(), 4));
    let mut table = made.ok().expect(&rt, "a table");
    let pushes = answers_of(&rt, &mut table);
    expect_words(&rt, pushes, "Done JournalFault 1 147 1 Torn(97) 97");
    let answers = ask_stopped(&rt, &mut table);
    expect_words(&rt, answers, "JournalStopped 1 UnknownAddress 1");
}
