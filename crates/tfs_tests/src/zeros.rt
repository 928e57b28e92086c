//! What becomes of the rest of a damaged journal, worked out by hand. A line has the offset of the
//! rest, the recorded number of synced bytes, `-` if it is unknown, the number of zeros in the rest,
//! and what follows them: a text, nothing, or `!` for a failed read.

use crate::lines::{Judge, expect_lines, expect_words, number_in, split};
use crate::readers::Pieces;
use std::alloc::{AllocError, Global};
use std::process::Abort;
use tfs_folder::{JournalTail, tail_of};
use tfs_stream::{ReadFault, Watched};

/// Returns a decision in words.
fn tail_words(alloc: Global, found: Result<JournalTail, ReadFault>) -> Result<String, AllocError> {
    match found {
        Ok(tail) => format!(in alloc; "{tail:?}"),
        Err(fault) => format!(in alloc; "{fault:?}"),
    }
}

/// Returns a number of zeros, and a text after them unless that is `!`.
fn rest_of(alloc: Global, zeros: usize, text: &str) -> Result<Vec<u8>, AllocError> {
    let mut rest = vec![in alloc; 0; zeros]?;
    if text != "!" {
        rest.extend_from_slice(text.as_bytes())?;
    }
    Ok(rest)
}

/// The lines of the table.
struct Tails;

impl Judge for Tails {
    fn judge(rt: &(impl Alloc<A = Global> + Abort), given: &str, wanted: &str) {
        let (end, words) = split(given);
        let (synced, words) = split(words);
        let (zeros, text) = split(words);
        let (end, zeros) = (number_in(rt, end) as usize, number_in(rt, zeros) as usize);
        let rest = rest_of(rt.alloc(), zeros, text).expect(rt, "memory");
        let mut source = Watched::new(Pieces::new(rest.as_slice(), 50_000, text == "!"));
        let found = tail_of(rt.alloc(), end, &mut source, synced.parse::<u64>().ok());
        expect_words(rt, tail_words(rt.alloc(), found), wanted);
    }
}

/// Rests of journals, and what becomes of them.
const TAILS: &str = "31 0 1 = Cut(1)
31 0 200000 = Cut(200000)
31 31 7 = Cut(7)
31 32 7 = Synced(32)
31 18446744073709551615 7 = Synced(18446744073709551615)
31 - 7 = Unknown
6 0 7 = Cut(7)
5 0 7 = Kept
5 - 7 = Kept
0 0 7 = Kept
0 1 7 = Kept
31 0 0 = Kept
31 - 0 = Kept
31 0 0 a = Kept
31 0 7 a = Kept
31 - 7 a = Kept
31 0 150000 a = Kept
31 0 0 ! = Source
31 0 7 ! = Source";

#[test]
fn zeros_alone_are_cut_unless_more_bytes_were_synced(rt: HostRuntime) {
    expect_lines::<Tails>(&rt, TAILS);
}
