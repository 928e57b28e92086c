//! Conversations over a table with readers and writers that behave as no file or socket can be made
//! to.

use crate::drafts::name_of;
use crate::readers::Pieces;
use crate::texts::{DONE, PUSH_AND_READ, REPLIES, S1};
use std::alloc::Global;
use std::io;
use std::process::Abort;
use tfs_calls::{Call, Refusal, Reply};
use tfs_conversation::{
    Conversation, Desk, Ended, Plain, Reads, ServeFault, TableDesk, Turn, Watched,
    converse_over_table,
};
use tfs_records::Discard;
use tfs_table::Table;

/// A writer that expects these bytes. It takes at most `most` bytes a call, up to `room` bytes in
/// all, and then none, without an error. It counts the writes, and records whether it was given
/// other bytes.
#[derive(Drop)]
struct Taking<'w> {
    rest: &'w [u8],
    most: usize,
    room: usize,
    calls: u64,
    differs: bool,
}

impl<'w> Taking<'w> {
    /// Returns a writer that was given nothing.
    fn new(rest: &'w [u8], most: usize, room: usize) -> Taking<'w> {
        Taking {
            rest,
            most,
            room,
            calls: 0,
            differs: false,
        }
    }

    /// Returns true if it was given the expected bytes and no others.
    fn has_all(&self) -> bool {
        self.rest.is_empty() && !self.differs
    }
}

impl<'w> io::Write for Taking<'w> {
    fn write(&mut self, buf: &[u8]) -> io::Result<usize> {
        self.calls = self.calls.saturating_add(1);
        let count = self.most.min(buf.len()).min(self.room);
        let (piece, _) = buf.split_at(count);
        let (wanted, rest) = self.rest.split_at(count.min(self.rest.len()));
        self.differs = self.differs || piece != wanted;
        self.rest = rest;
        self.room -= count;
        Ok(count)
    }

    fn flush(&mut self) -> io::Result<()> {
        Ok(())
    }
}

/// Runs a conversation over a new table. Returns how it ended, how many reads it made, and how many
/// entries the table has then.
fn talk<S: io::Read>(
    rt: &(impl Alloc<A = Global> + Abort),
    reader: &mut Watched<S>,
    writer: &mut Watched<Taking<'_>>,
) -> (Result<Ended, ServeFault>, u64, usize) {
    let mut table = Table::new(rt.alloc(), Discard).ok().expect(rt, "a table");
    let mut reads = Reads::new();
    let ended = converse_over_table(rt.alloc(), reader, writer, &mut table, &mut reads);
    (ended, reads.used(), table.len())
}

/// Checks that an input that comes in reads of at most `most` bytes is read to its end, that all
/// reads are counted, and that it has these replies. Returns the numbers of reads and writes.
fn calls_of(
    rt: &(impl Alloc<A = Global> + Abort),
    input: &str,
    most: usize,
    replies: &str,
    end: Ended,
) -> (u64, u64) {
    let mut reader = Watched::new(Pieces::new(input.as_bytes(), most, false));
    let mut writer = Watched::new(Taking::new(replies.as_bytes(), usize::MAX, usize::MAX));
    let (ended, reads, _) = talk(rt, &mut reader, &mut writer);
    assert!(rt; ended == Ok(end) && writer.inner.has_all(), "{most}");
    assert!(rt;
        reads == reader.inner.calls && reader.inner.told_end,
        "{most}"
    );
    (reads, writer.inner.calls)
}

/// Checks that the push and the read, in reads of at most `most` bytes, take this number of reads,
/// and each reply one write.
fn takes_reads(rt: &(impl Alloc<A = Global> + Abort), most: usize, reads: u64) {
    let calls = calls_of(rt, PUSH_AND_READ, most, REPLIES, Ended::Clean);
    assert!(rt; calls == (reads, 2), "{most}");
}

#[test]
fn each_read_is_counted_and_a_short_reply_is_one_write(rt: HostRuntime) {
    takes_reads(&rt, 130, 2);
    takes_reads(&rt, 96, 3);
    takes_reads(&rt, 1, 131);
}

#[test]
fn the_input_is_read_to_its_end(rt: HostRuntime) {
    for most in [53, 95, 129] {
        let (_, writes) = calls_of(&rt, PUSH_AND_READ, most, REPLIES, Ended::Clean);
        assert!(rt; writes == 2, "{most}");
    }
    let (_, writes) = calls_of(&rt, "GET /state/a HT", 1, "", Ended::Cut);
    assert!(rt; writes == 0);
}

/// Checks that a writer that takes at most `most` bytes a call, and `room` bytes in all, has this
/// prefix of the replies to the input, whose first request is accepted, and that the conversation
/// has this end. Unless the end is an error, the input is read to its end.
fn is_taken(
    rt: &(impl Alloc<A = Global> + Abort),
    input: &str,
    (most, room): (usize, usize),
    front: &[u8],
    end: Result<Ended, ServeFault>,
) {
    let mut reader = Watched::new(Pieces::new(input.as_bytes(), usize::MAX, false));
    let mut writer = Watched::new(Taking::new(front, most, room));
    let (ended, _, entries) = talk(rt, &mut reader, &mut writer);
    assert!(rt; ended == end && entries == 1, "{room}");
    assert!(rt; writer.inner.has_all(), "{room}");
    assert!(rt; reader.inner.told_end || end.is_err(), "{room}");
}

#[test]
fn a_writer_that_takes_nothing_more_has_a_front_of_the_replies(rt: HostRuntime) {
    assert!(rt; REPLIES.len() == 150);
    for room in 0..150 {
        let (front, _) = REPLIES.as_bytes().split_at(room);
        is_taken(&rt, PUSH_AND_READ, (1, room), front, Err(ServeFault::Write));
    }
}

#[test]
fn a_long_state_is_written_in_pieces(rt: HostRuntime) {
    let blanks = " ".repeat(rt.alloc(), 199_959).expect(&rt, "memory");
    is_in_pieces(&rt, blanks.as_str());
}

/// Checks the replies to the push and the read of S1 with trailing spaces, 200,000 bytes, when they
/// are taken in pieces of 1,000 bytes.
fn is_in_pieces(rt: &(impl Alloc<A = Global> + Abort), blanks: &str) {
    let input = format!(in rt.alloc();
        "POST /state/a HTTP/1.1\r\nHost: h\r\nContent-Length: 200000\r\n\r\n{S1}{blanks}\
GET /state/a HTTP/1.1\r\nHost: h\r\n\r\n"
    );
    let replies = format!(in rt.alloc();
        "{DONE}HTTP/1.1 200 OK\r\nContent-Type: application/json\r\nContent-Length: 200000\r\n\r\n{S1}{blanks}"
    );
    is_taken(
        rt,
        input.expect(rt, "memory").as_str(),
        (1_000, usize::MAX),
        replies.expect(rt, "memory").as_bytes(),
        Ok(Ended::Clean),
    );
}

/// Checks that a reader that fails after the first `count` bytes of the push and the read, in reads
/// of at most `most` bytes, leaves the first `written` bytes of their replies.
fn leaves(rt: &(impl Alloc<A = Global> + Abort), (count, most): (usize, usize), written: usize) {
    let (rest, _) = PUSH_AND_READ.as_bytes().split_at(count.min(130));
    let (front, _) = REPLIES.as_bytes().split_at(written.min(150));
    let mut reader = Watched::new(Pieces::new(rest, most, true));
    let mut writer = Watched::new(Taking::new(front, usize::MAX, usize::MAX));
    let reads = count.div_ceil(most.max(1)).saturating_add(1) as u64;
    let entries = if written == 0 { 0 } else { 1 };
    let ended = talk(rt, &mut reader, &mut writer);
    assert!(rt; ended == (Err(ServeFault::Read), reads, entries), "{count}");
    assert!(rt; reader.has_failed && !writer.has_failed, "{count}");
    assert!(rt; writer.inner.has_all(), "{count}");
}

#[test]
fn a_reader_that_fails_after_a_message_leaves_its_reply(rt: HostRuntime) {
    leaves(&rt, (96, 96), 38);
    for count in 0..131 {
        let written = if count < 96 {
            0
        } else if count < 130 {
            38
        } else {
            150
        };
        leaves(&rt, (count, 1), written);
    }
}

/// A reader that gives one byte a read, without end: first its own.
#[derive(Drop)]
struct Endless<'i>(&'i [u8]);

impl<'i> io::Read for Endless<'i> {
    fn read(&mut self, buf: &mut [u8]) -> io::Result<usize> {
        let (Some((byte, rest)), Some(place)) = (self.0.split_first(), buf.first_mut()) else {
            return Ok(0);
        };
        *place = *byte;
        self.0 = if rest.is_empty() {
            b"x".as_slice()
        } else {
            rest
        };
        Ok(1)
    }
}

#[test]
fn a_body_whose_bytes_come_alone_ends_with_the_reads(rt: HostRuntime) {
    let head = b"POST /state/a HTTP/1.1\r\nHost: h\r\nContent-Length: 16777216\r\n\r\n";
    let mut reader = Watched::new(Endless(head));
    let mut writer = Watched::new(Taking::new(b"", usize::MAX, usize::MAX));
    let ended = talk(&rt, &mut reader, &mut writer);
    assert!(rt; ended == (Err(ServeFault::TooManyReads), 1_048_576, 0));
    assert!(rt; writer.inner.has_all() && writer.inner.calls == 0);
}

#[test]
fn a_desk_over_a_table_answers(rt: HostRuntime) {
    let mut table = Table::new(rt.alloc(), Discard).ok().expect(&rt, "a table");
    let mut desk = TableDesk {
        alloc: rt.alloc(),
        table: &mut table,
    };
    let reply = desk.answer(Call::Read(name_of(&rt)));
    assert!(rt; matches!(reply, Reply::Refused(Refusal::NoState)));
}

/// Holds the conversation of the push and the read over a new table in two turns, in reads of at
/// most `most` bytes; the reader of the first turn fails after `count` bytes. Checks that both turns
/// together have the replies, and whether the first one ended between two messages.
fn goes_on(rt: &(impl Alloc<A = Global> + Abort), count: usize, most: usize) {
    let mut table = Table::new(rt.alloc(), Discard).ok().expect(rt, "a table");
    let mut desk = TableDesk {
        alloc: rt.alloc(),
        table: &mut table,
    };
    let mut desk = Plain { desk: &mut desk };
    let (front, rest) = PUSH_AND_READ.as_bytes().split_at(count.min(130));
    let mut writer = Watched::new(Taking::new(REPLIES.as_bytes(), usize::MAX, usize::MAX));
    let conversation = Conversation::new(rt.alloc(), false).ok();
    let mut reader = Watched::new(Pieces::new(front, most, true));
    let turn = conversation
        .expect(rt, "memory")
        .hold(&mut reader, &mut writer, &mut desk);
    let Turn { end, left } = turn;
    assert!(rt; end == Err(ServeFault::Read), "{count}");
    let conversation = paused_and_resumed(rt, left, count);
    let mut reader = Watched::new(Pieces::new(rest, most, false));
    let Turn { end, left } = conversation.hold(&mut reader, &mut writer, &mut desk);
    assert!(rt; end == Ok(Ended::Clean) && left.is_none(), "{count}");
    assert!(rt; writer.inner.has_all(), "{count}");
}

/// Pauses and resumes the conversation that `count` bytes have left. Checks whether it was between
/// two messages.
fn paused_and_resumed(
    rt: &(impl Alloc<A = Global> + Abort),
    left: Option<Conversation>,
    count: usize,
) -> Conversation {
    let paused = left.expect(rt, "a conversation that can go on").pause();
    let is_between = matches!(count, 0 | 96 | 130);
    assert!(rt; paused.is_ok() == is_between, "{count}");
    let resumed = match paused {
        Ok(reads) => Conversation::after(rt.alloc(), false, reads),
        Err(paused) => paused.resume(rt.alloc()),
    };
    resumed.ok().expect(rt, "memory")
}

#[test]
fn a_conversation_goes_on_where_its_reader_failed(rt: HostRuntime) {
    for count in 0..131 {
        goes_on(&rt, count, 1);
        goes_on(&rt, count, usize::MAX);
    }
}
