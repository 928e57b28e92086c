//! Journals that come in pieces of several sizes. They are read and rebased as whole ones are, or
//! have the same fault.

ghost use Rattle.std.specs.Prelude.{◌≡◌, [], false};

use crate::journals::{journal_bytes, push_base, push_records};
use crate::lines::{expect_at, expect_that, expect_words};
use crate::readers::Pieces;
use std::alloc::{AllocError, Global};
use std::process::Abort;
use tfs_journal::{End, decode};
use tfs_records::MemorySink;
use tfs_replay::rebase_from;
use tfs_stream::{Buffer, Watched, read_front, read_more};
use tfs_table::{OpenFault, Table};

/// Returns a source of pieces of these bytes.
fn source_of(bytes: &[u8], most: usize, fails: bool) -> Watched<Pieces<'_>> {
    Watched::new(Pieces::new(bytes, most, fails))
}

/// Appends to a text what bytes read as: the format, the base and the records. Returns how they
/// end.
fn push_whole(rt: &(impl Alloc<A = Global> + Abort), text: &mut Vec<u8>, bytes: &[u8]) -> End {
    let read = decode(rt.alloc(), bytes).expect(rt, "memory");
    text.push(read.format).ok().expect(rt, "memory");
    push_base(rt, text, &read.base);
    push_records(rt, text, read.entries.as_slice());
    read.end
}

/// Appends the front of a source to a text: the format, the base and the first records. Returns the
/// end if it is known.
fn push_front(
    rt: &(impl Alloc<A = Global> + Abort),
    text: &mut Vec<u8>,
    buffer: &mut Buffer,
    source: &mut Watched<Pieces<'_>>,
) -> Option<End>
    requires { buffer.old ≡ record { taken = 0; bytes = [] } }
{
    let front = read_front(rt.alloc(), buffer, source).expect(rt, "a front");
    text.push(front.format).ok().expect(rt, "memory");
    push_base(rt, text, &front.base);
    push_records(rt, text, front.piece.entries.as_slice());
    front.piece.end
}

/// Appends the records of the next piece to a text. Returns the end if it is known.
fn push_piece(
    rt: &(impl Alloc<A = Global> + Abort),
    text: &mut Vec<u8>,
    buffer: &mut Buffer,
    source: &mut Watched<Pieces<'_>>,
) -> Option<End> {
    let piece = read_more(rt.alloc(), buffer, source).expect(rt, "a piece");
    push_records(rt, text, piece.entries.as_slice());
    piece.end
}

/// Appends the same as `push_whole`, from bytes in pieces.
fn push_pieces(
    rt: &(impl Alloc<A = Global> + Abort),
    text: &mut Vec<u8>,
    bytes: &[u8],
    most: usize,
) -> End {
    let mut source = source_of(bytes, most, false);
    let mut buffer = Buffer::new(rt.alloc()).expect(rt, "memory");
    let mut end = push_front(rt, text, &mut buffer, &mut source);
    for _ in 0..1_000 {
        if end.is_none() {
            end = push_piece(rt, text, &mut buffer, &mut source);
        }
    }
    end.expect(rt, "an end")
}

/// Checks that bytes in pieces of at most `most` bytes read as they do whole.
fn is_read_alike(rt: &(impl Alloc<A = Global> + Abort), bytes: &[u8], most: usize) {
    let mut wanted = Vec::new(rt.alloc());
    let whole = push_whole(rt, &mut wanted, bytes);
    let mut found = Vec::new(rt.alloc());
    let end = push_pieces(rt, &mut found, bytes, most);
    expect_at(rt, end == whole && found == wanted, most);
}

/// Returns a table in words: its position, its names, the bytes of its sink, and the end of the
/// journal that it was made from.
fn words_of(alloc: Global, table: &Table<MemorySink>, end: End) -> Result<String, AllocError> {
    let (position, names) = (table.position(), table.names());
    let bytes = table.sink().bytes();
    format!(in alloc; "{position} {names} {end:?} {bytes:?}")
}

/// Returns a sink that takes 50 bytes a call, and 100 calls.
fn sink(alloc: Global) -> MemorySink
    ensures { (result.has_failed ≡ false) × (result.bytes ≡ []) }
{
    MemorySink::new(alloc, 50, 100)
}

/// Opens a table from bytes and rebases it. Returns the rebased table, and how the bytes end.
fn open_and_rebase(alloc: Global, bytes: &[u8]) -> Result<(Table<MemorySink>, End), OpenFault> {
    let (table, end) = Table::open(alloc, bytes, sink(alloc))?;
    Ok((table.rebase(sink(alloc))?, end))
}

/// Returns the same in words, or the fault.
fn rebase_whole(alloc: Global, bytes: &[u8]) -> Result<String, AllocError> {
    match open_and_rebase(alloc, bytes) {
        Ok((table, end)) => words_of(alloc, &table, end),
        Err(fault) => format!(in alloc; "Opening({fault:?})"),
    }
}

/// Returns the same for bytes in pieces.
fn rebase_pieces(
    alloc: Global,
    bytes: &[u8],
    most: usize,
    fails: bool,
) -> Result<String, AllocError> {
    let mut source = source_of(bytes, most, fails);
    match rebase_from(alloc, &mut source, sink(alloc)) {
        Ok((table, end)) => words_of(alloc, &table, end),
        Err(fault) => format!(in alloc; "{fault:?}"),
    }
}

/// Checks bytes, whole and in pieces of at most `most` bytes.
fn is_same(rt: &(impl Alloc<A = Global> + Abort), bytes: &[u8], most: usize) {
    is_read_alike(rt, bytes, most);
    let wanted = rebase_whole(rt.alloc(), bytes).expect(rt, "memory");
    let found = rebase_pieces(rt.alloc(), bytes, most, false);
    expect_words(rt, found, wanted.as_str());
}

/// Checks prefixes of a text, with a length of every sixth number, in pieces of a different size
/// each time.
fn are_same(rt: &(impl Alloc<A = Global> + Abort), bytes: &[u8]) {
    for i in 0..bytes.len() / 6 + 1 {
        is_same(rt, &bytes[..i * 6], 1 + i * 11 % 64);
    }
    is_same(rt, bytes, 1);
    is_same(rt, bytes, 1_000);
}

#[test]
fn first_bytes_in_pieces_are_what_they_are_whole(rt: HostRuntime) {
    for length in ["92", "137", "192"] {
        are_same(&rt, journal_bytes(&rt, length).as_slice());
    }
}

/// Checks a text with one bit changed, at every sixth place.
fn are_damaged_alike(rt: &(impl Alloc<A = Global> + Abort), bytes: &mut [u8]) {
    for i in 0..bytes.len() / 6 {
        bytes[i * 6] ^= 1;
        is_same(rt, bytes, 1 + i * 11 % 64);
        bytes[i * 6] ^= 1;
    }
}

#[test]
fn damaged_bytes_in_pieces_are_what_they_are_whole(rt: HostRuntime) {
    for length in ["92", "104", "192"] {
        are_damaged_alike(&rt, journal_bytes(&rt, length).as_mut_slice());
    }
}

#[test]
fn a_source_that_fails_is_reported(rt: HostRuntime) {
    let text = journal_bytes(&rt, "192");
    let bytes = text.as_slice();
    for i in 0..65 {
        let front = &bytes[..(i * 3).min(bytes.len())];
        expect_words(&rt, rebase_pieces(rt.alloc(), front, 50, true), "Source");
    }
}

/// Checks that a front has this number of entries, and that its end isn't known yet.
fn has_only_entries(
    rt: &(impl Alloc<A = Global> + Abort),
    buffer: &mut Buffer,
    source: &mut Watched<Pieces<'_>>,
    count: usize,
)
    requires { buffer.old ≡ record { taken = 0; bytes = [] } }
{
    let front = read_front(rt.alloc(), buffer, source).expect(rt, "a front");
    expect_at(rt, front.piece.entries.as_slice().len() == count, count);
    expect_that(rt, front.piece.end.is_none(), "the end isn't known yet");
}

/// Checks that both entries of a text are returned before a read from a source that fails then.
fn is_taken_first(rt: &(impl Alloc<A = Global> + Abort), bytes: &[u8]) {
    let mut source = source_of(bytes, 1_000, true);
    let mut buffer = Buffer::new(rt.alloc()).expect(rt, "memory");
    has_only_entries(rt, &mut buffer, &mut source, 2);
    let fails = read_more(rt.alloc(), &mut buffer, &mut source).is_err();
    expect_that(rt, fails, "the source fails where more is read");
}

#[test]
fn what_is_there_is_taken_before_more_is_read(rt: HostRuntime) {
    is_taken_first(&rt, journal_bytes(&rt, "192").as_slice());
}
