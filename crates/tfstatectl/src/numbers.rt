//! Numbers with K, M or G, which are written out before the command line is parsed.

use std::alloc::{AllocError, Global};

/// The options that take such numbers.
const OPTIONS: [&str; 3] = ["--compact-bytes", "--compact-entries", "--keep-bytes"];

/// Returns the words of a command line, with the numbers of these options written out.
pub(crate) fn expand_numbers(alloc: Global, words: Vec<String>) -> Result<Vec<String>, AllocError> {
    let mut all = Vec::with_capacity(alloc, words.len())?;
    let mut is_number = false;
    for word in words {
        let next = OPTIONS.contains(&word.as_str());
        all.push(word_of(alloc, word, is_number)?)?;
        is_number = next;
    }
    Ok(all)
}

/// Returns a word with its number written out, if it is the value of one of these options: the word
/// after the option (`is_number`), or the part after the option and `=`.
fn word_of(alloc: Global, word: String, is_number: bool) -> Result<String, AllocError> {
    if is_number {
        return match value_of(word.as_str()) {
            Some(value) => format!(in alloc; "{value}"),
            None => Ok(word),
        };
    }
    let written = match word.as_str().split_once('=') {
        Some((option, number)) if OPTIONS.contains(&option) => match value_of(number) {
            Some(value) => Some(format!(in alloc; "{option}={value}")?),
            None => None,
        },
        _ => None,
    };
    Ok(written.unwrap_or(word))
}

/// Returns the value of a number with the suffix K (1,024), M (1,048,576) or G (1,073,741,824).
/// Returns `None` if the text isn't such a number or its value exceeds 64 bits.
fn value_of(text: &str) -> Option<u64> {
    let (digits, unit) = parts_of(text)?;
    digits.parse::<u64>().ok()?.checked_mul(unit)
}

/// Splits such a number into its digits and the value of its suffix.
fn parts_of(text: &str) -> Option<(&str, u64)> {
    if let Some(digits) = text.strip_suffix('K') {
        return Some((digits, 1_024));
    }
    if let Some(digits) = text.strip_suffix('M') {
        return Some((digits, 1_048_576));
    }
    match text.strip_suffix('G') {
        Some(digits) => Some((digits, 1_073_741_824)),
        None => None,
    }
}
