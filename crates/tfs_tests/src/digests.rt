//! The MD5s of four texts computed together, against RFC 1321's test suite and against the MD5 of
//! each text alone.

use crate::helpers::expect_vector;
use crate::lines::{Judge, expect_at, expect_lines};
use crate::sinks::bytes_of;
use md5::{Digest, Md5};
use std::alloc::Global;
use std::process::Abort;
use tfs_digests::digests;

/// The test suite (section A.5): texts, and their MD5s.
const SUITE: &str = " = d41d8cd98f00b204e9800998ecf8427e
a = 0cc175b9c0f1b6a831c399e269772661
abc = 900150983cd24fb0d6963f7d28e17f72
message digest = f96b697d7cb7938d525a2f31aaf161d0
abcdefghijklmnopqrstuvwxyz = c3fcd3d76192e4007dfb496cca67e13b
ABCDEFGHIJKLMNOPQRSTUVWXYZabcdefghijklmnopqrstuvwxyz0123456789 = d174ab98d277d9f5a5611c2c9f419d9f
12345678901234567890123456789012345678901234567890123456789012345678901234567890 = 57edf4a22be3c955ac49da2e2107b67a";

/// A text in each of the four places.
struct Suite;

impl Judge for Suite {
    fn judge(rt: &(impl Alloc<A = Global> + Abort), given: &str, wanted: &str) {
        let text = given.as_bytes();
        let [first, _, third, _] = digests([text, b"", text, b"abc"]);
        let [_, second, _, fourth] = digests([b"", text, b"abc", text]);
        for digest in [first, second, third, fourth] {
            expect_vector(rt, digest.as_slice(), wanted);
        }
    }
}

#[test]
fn texts_of_the_suite_have_their_digests(rt: HostRuntime) {
    expect_lines::<Suite>(&rt, SUITE);
}

/// Returns true if four texts have the digests that each has alone.
fn are_as_alone(a: &[u8], b: &[u8], c: &[u8], d: &[u8]) -> bool {
    let [first, second, third, fourth] = digests([a, b, c, d]);
    first == Md5::digest(a)
        && second == Md5::digest(b)
        && third == Md5::digest(c)
        && fourth == Md5::digest(d)
}

/// Checks four parts of 1,000 bytes, which this length divides.
fn expect_parts(rt: &impl Abort, bytes: &[u8], len: usize) {
    assert!(rt; len <= 130 && bytes.len() == 1_000);
    let are = are_as_alone(
        &bytes[..len],
        &bytes[len..2 * len],
        &bytes[len..],
        &bytes[..130 - len],
    );
    expect_at(rt, are, len);
}

#[test]
fn texts_of_each_length_have_their_digests(rt: HostRuntime) {
    let bytes = bytes_of(&rt, 1_000);
    for len in 0..131 {
        expect_parts(&rt, bytes.as_slice(), len);
    }
}
