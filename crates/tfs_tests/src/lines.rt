//! Tests of lines: each line of a text is a case, `GIVEN = WANTED`.

use std::alloc::{AllocError, Global};
use std::process::Abort;

/// A judge of the lines of a table.
pub(crate) trait Judge {
    /// Compares the answer to the given part of a line with the wanted part.
    fn judge(rt: &(impl Alloc<A = Global> + Abort), given: &str, wanted: &str);
}

/// Judges each line of a table.
pub(crate) fn expect_lines<J: Judge>(rt: &(impl Alloc<A = Global> + Abort), lines: &str) {
    for line in lines.lines() {
        let (given, wanted) = line.split_once(" = ").expect(rt, "a line has two parts");
        J::judge(rt, given, wanted);
    }
}

/// Splits a line after its first word.
pub(crate) fn split(line: &str) -> (&str, &str) {
    line.split_once(' ').unwrap_or((line, ""))
}

/// Returns the number in a word.
pub(crate) fn number_in(rt: &impl Abort, word: &str) -> u64 {
    word.parse::<u64>().ok().expect(rt, "a number")
}

/// Fails with a text unless the condition holds.
pub(crate) fn expect_that(rt: &impl Abort, is_so: bool, about: &str) {
    assert!(rt; is_so, "{about}");
}

/// Fails with a number unless the condition holds.
pub(crate) fn expect_at(rt: &impl Abort, is_so: bool, number: usize) {
    assert!(rt; is_so, "at {number}");
}

/// Compares two texts.
pub(crate) fn expect_text(rt: &impl Abort, found: &str, wanted: &str) {
    assert!(rt; found == wanted, "{found}, and {wanted} is wanted");
}

/// Compares an answer in words.
pub(crate) fn expect_words(rt: &impl Abort, found: Result<String, AllocError>, wanted: &str) {
    expect_text(rt, found.expect(rt, "memory").as_str(), wanted);
}
