//! The patterns of access files that nginx and the page read alike.

/// Returns the pattern of a line that is a pattern and a 1, as in `"~^auditor:GET:" 1;`. The pattern
/// may lack the quotes. Returns none for another line, and for a pattern that the regular
/// expressions of nginx may read otherwise: with a flag, a look-around, a possessive quantifier or a
/// nested class.
pub(crate) fn pattern_in(line: &str) -> Option<&str> {
    let word = line.strip_suffix("1;")?;
    let quoted = word.trim_end();
    if quoted.len() == word.len() {
        return None;
    }
    let pattern = match quoted.strip_prefix('"') {
        Some(rest) => rest.strip_suffix('"')?,
        None => quoted,
    };
    let pattern = pattern.strip_prefix('~')?;
    if is_plain(pattern) {
        Some(pattern)
    } else {
        None
    }
}

/// Returns true if a pattern has only plain characters, and no two in a row that the two kinds of
/// regular expressions may read otherwise.
fn is_plain(pattern: &str) -> bool {
    pattern.bytes().all(is_plain_byte)
        && pattern
            .as_bytes()
            .windows(2)
            .all(|pair| is_plain_pair(pair))
        && has_plain_groups(pattern)
}

/// Returns true if a byte may be part of a pattern.
fn is_plain_byte(byte: u8) -> bool {
    byte.is_ascii_alphanumeric() || b"._:@+-^$|()[]*?,{}\\".contains(&byte)
}

/// Returns true unless two bytes in a row are a possessive quantifier, an operation on classes, a
/// class that is nested or empty, or an escape that isn't of a punctuation mark.
fn is_plain_pair(pair: &[u8]) -> bool {
    match pair {
        [b'*' | b'+' | b'?' | b'}', b'+'] | [b'-', b'-'] | [b'[', b'[' | b']'] => false,
        [b'\\', escaped] => b".+-*?()[]{}|^$".contains(escaped),
        _ => true,
    }
}

/// Returns true if each group with a question mark is one without a number, `(?:`.
fn has_plain_groups(pattern: &str) -> bool {
    let mut rest = pattern;
    for _ in 0..pattern.len() {
        match rest.split_once("(?") {
            Some((_, inner)) => {
                if !inner.starts_with(':') {
                    return false;
                }
                rest = inner;
            }
            None => return true,
        }
    }
    true
}
