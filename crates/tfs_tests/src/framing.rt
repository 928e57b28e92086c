//! Messages, each worked out by hand from RFC 9112.

use crate::texts::{PUSH_AND_READ, S1};
use std::alloc::Global;
use std::process::Abort;
use tfs_framing::{Received, RequestDecoder, Take, take};

/// A push of S1 in one chunk, of 115 bytes.
const PUSH_IN_CHUNKS: &str =
    "POST /state/a HTTP/1.1\r\nHost: h\r\nTransfer-Encoding: chunked\r\n\r\n\
29\r\n{\"version\":4, \"serial\":1 ,\"lineage\":\"L1\"}\r\n0\r\n\r\n";

/// Checks that the bytes begin with a push of S1 of this length.
fn expect_push(rt: &(impl Alloc<A = Global> + Abort), bytes: &[u8], len: usize) {
    match take(rt.alloc(), bytes).expect(rt, "memory") {
        Take::Got(request, used) => {
            assert!(rt; used == len && request.into_body().as_slice() == S1.as_bytes());
        }
        _ => panic!(rt; "there is a message in {} bytes", bytes.len()),
    }
}

/// Checks that the bytes aren't a complete message yet.
fn expect_need(rt: &(impl Alloc<A = Global> + Abort), bytes: &[u8]) {
    match take(rt.alloc(), bytes).expect(rt, "memory") {
        Take::Need => {}
        _ => panic!(rt; "{} bytes are no message yet", bytes.len()),
    }
}

/// Checks that a text begins with a push of S1 of this length, and that fewer bytes aren't a
/// message.
fn expect_first_push(rt: &(impl Alloc<A = Global> + Abort), text: &str, len: usize) {
    let bytes = text.as_bytes();
    for n in 0..bytes.len() {
        if n < len {
            expect_need(rt, &bytes[..n]);
        } else {
            expect_push(rt, &bytes[..n], len);
        }
    }
    expect_push(rt, bytes, len);
}

#[test]
fn a_message_is_taken_once_it_is_whole(rt: HostRuntime) {
    expect_first_push(&rt, PUSH_AND_READ, 96);
    expect_first_push(&rt, PUSH_IN_CHUNKS, 115);
}

/// Checks that a decoder needs more bytes and has room for `wanted`, and feeds it these.
fn feed(
    rt: &(impl Alloc<A = Global> + Abort),
    decoder: &mut RequestDecoder,
    bytes: &[u8],
    wanted: usize,
) {
    match decoder.next(rt.alloc()).expect(rt, "memory") {
        Received::More(room) => {
            assert!(rt; room == wanted, "room for {room} bytes");
            assert!(rt; bytes.len() <= room);
            decoder.feed(bytes);
        }
        _ => panic!(rt; "{} bytes complete a message", bytes.len()),
    }
}

/// Checks that a decoder has a push of S1, and no bytes after it.
fn expect_received(rt: &(impl Alloc<A = Global> + Abort), decoder: &mut RequestDecoder) {
    match decoder.next(rt.alloc()).expect(rt, "memory") {
        Received::Message(request) => {
            assert!(rt; request.into_body().as_slice() == S1.as_bytes());
            assert!(rt; decoder.is_empty());
        }
        _ => panic!(rt; "the push is whole"),
    }
}

/// Checks that a decoder has room for `wanted` bytes after the first `n` bytes of a text that
/// begins with a push of `len` bytes, and that the rest of the push completes it.
fn expect_wanted(
    rt: &(impl Alloc<A = Global> + Abort),
    text: &str,
    len: usize,
    (n, wanted): (usize, usize),
) {
    assert!(rt; n <= len && len <= text.len());
    let mut decoder = RequestDecoder::new(rt.alloc());
    feed(rt, &mut decoder, &text.as_bytes()[..n], 65_536);
    feed(rt, &mut decoder, &text.as_bytes()[n..len], wanted);
    expect_received(rt, &mut decoder);
}

#[test]
fn what_a_head_states_is_wanted_at_once(rt: HostRuntime) {
    for row in [(0, 65_536), (1, 65_536), (54, 65_536), (55, 41), (95, 1)] {
        expect_wanted(&rt, PUSH_AND_READ, 96, row);
    }
}

#[test]
fn a_chunk_is_wanted_with_its_end(rt: HostRuntime) {
    for n in [63, 66, 67, 109, 110, 113] {
        expect_wanted(&rt, PUSH_IN_CHUNKS, 115, (n, 65_536));
    }
}

/// The head of a push in chunks.
const HEAD_IN_CHUNKS: &str =
    "POST /state/a HTTP/1.1\r\nHost: h\r\nTransfer-Encoding: chunked\r\n\r\n";

/// Checks that a decoder refuses its bytes because no chunk begins after the previous one.
fn expect_bad_chunk(rt: &(impl Alloc<A = Global> + Abort), decoder: &mut RequestDecoder) {
    match decoder.next(rt.alloc()).expect(rt, "memory") {
        Received::Refused(refusal) => assert!(rt; refusal.name() == "BadChunk"),
        _ => panic!(rt; "the push is refused"),
    }
}

#[test]
fn a_decoder_returns_no_message_after_a_refusal(rt: HostRuntime) {
    let mut decoder = RequestDecoder::new(rt.alloc());
    feed(&rt, &mut decoder, HEAD_IN_CHUNKS.as_bytes(), 65_536);
    feed(&rt, &mut decoder, PUSH_AND_READ.as_bytes(), 65_536);
    expect_bad_chunk(&rt, &mut decoder);
    expect_bad_chunk(&rt, &mut decoder);
}
