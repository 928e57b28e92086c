//! The search for the head of a message.

ghost use Rattle.std.specs.Prelude.{◌≡◌, ◌≤◌, ◌+◌, ℕ, List, ◌∷◌, ◌++◌, length, take, drop, IfSome, IfNone, IfOk, IfErr, ◌<◌};
ghost use Rattle.httparse.specs.Grammar.{LineEnd, print_end, print_blank};
ghost use Rattle.tfs_framing.specs.Head.{StartsWithEmptyLine, EndsWithEmptyLine, IsMessageHead, HasHead, HasNoHead};
ghost use Rattle.tfs_framing.specs.Sought.{HasNoEndIn, IsSought};

use crate::limits::MAX_HEAD_BYTES;

/// The progress of the search for the end of a head.
#[derive(Clone, Copy)]
pub(crate) struct Search {
    /// The length of the empty lines that come first.
    pub(crate) skipped: usize,
    /// The number of bytes after them that were searched: none of these is a line feed followed by
    /// an empty line.
    pub(crate) passed: usize,
}

impl Search {
    /// Starts a search.
    pub(crate) fn start() -> Search
        ensures { (bytes : List ℕ) → IsSought bytes result }
    {
        Search {
            skipped: 0,
            passed: 0,
        }
    }
}

/// Returns the head of the message and the bytes after it. If no head ends in the first 16,384
/// bytes, returns the progress of the search instead.
pub(crate) fn find_head(bytes: &[u8], search: Search) -> Result<(&[u8], &[u8]), Search>
    requires { IsSought bytes.now search }
    ensures found { IfOk result (λ parts. (skipped : List LineEnd) × HasHead bytes.now skipped parts.0.now parts.1.now) }
    ensures absent { IfErr result (λ search. HasNoHead bytes.now) }
    ensures sought { IfErr result (λ search. length bytes.now < 16384 → IsSought bytes.now search) }
{
    let (window, _) = bytes.split_at(bytes.len().min(MAX_HEAD_BYTES));
    let (_, left) = window.split_at(search.skipped);
    let text = skip_empty_lines(left);
    let passed = search.passed.saturating_sub(left.len() - text.len());
    match head_len(text, passed) {
        Some(len) => {
            let (head, _) = text.split_at(len);
            let (_, rest) = bytes.split_at(window.len() - text.len() + len);
            Ok((head, rest))
        }
        None => Err(Search {
            skipped: window.len() - text.len(),
            passed: text.len().saturating_sub(2),
        }),
    }
}

/// Returns the bytes after the leading empty lines.
fn skip_empty_lines(bytes: &[u8]) -> &[u8]
    ensures skipped { (skipped : List LineEnd) × (bytes.now ≡ print_blank skipped ++ result.now) }
    ensures rest { ¬ (StartsWithEmptyLine result.now) }
{
    let mut rest = bytes;
    while let Some(after) = strip_empty_line(rest) {
        rest = after;
    }
    rest
}

/// Returns the length of the shortest prefix that ends with an empty line. The first `passed` bytes
/// were searched before.
pub(crate) fn head_len(bytes: &[u8], passed: usize) -> Option<usize>
    requires { HasNoEndIn passed bytes.now }
    ensures found { IfSome result (λ n. (head : List ℕ) × (rest : List ℕ) × (bytes.now ≡ head ++ rest)
        × (length head ≡ n) × IsMessageHead head) }
    ensures absent { IfNone result ((part rest : List ℕ) → bytes.now ≡ part ++ rest → ¬ (EndsWithEmptyLine part)) }
{
    let (_, mut rest) = bytes.split_at(passed.min(bytes.len()));
    while let Some((byte, after)) = rest.split_first() {
        if *byte == b'\n' {
            if let Some(behind) = strip_empty_line(after) {
                return Some(bytes.len() - behind.len());
            }
        }
        rest = after;
    }
    None
}

/// Returns the bytes after a leading empty line, or `None` if there is none.
fn strip_empty_line(bytes: &[u8]) -> Option<&[u8]>
    ensures found { IfSome result (λ rest. (end : LineEnd) × (bytes.now ≡ print_end end ++ rest.now)) }
    ensures absent { IfNone result (¬ (StartsWithEmptyLine bytes.now)) }
{
    match bytes {
        [b'\n', rest @ ..] => Some(rest),
        [b'\r', b'\n', rest @ ..] => Some(rest),
        _ => None,
    }
}
