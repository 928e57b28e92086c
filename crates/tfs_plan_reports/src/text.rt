//! The text of a plan's impact in each form, cut at a length.

ghost use Rattle.std.specs.Prelude.{◌≡◌, ◌⊎◌, ◌≤◌, ◌<◌, ◌+◌, length, take, sum, map, string_bytes};

use crate::lines::{foot, head, line};
use crate::rows::PlanRows;
use std::alloc::{AllocError, Global};

/// How a plan's impact is printed.
#[derive(Clone, Copy, Debug, PartialEq, Eq)]
pub enum PlanForm {
    /// Lines for people.
    Lines,
    /// A comment in Markdown.
    Markdown,
    /// A picture for Mermaid.
    Mermaid,
    /// A picture for Graphviz.
    Dot,
    /// JSON.
    Json,
}

/// Returns the text of a plan's impact. If it would have more than `bytes` bytes, the last rows are
/// left out, and the end says how many.
pub fn text_of(
    alloc: Global,
    plan: &PlanRows,
    form: PlanForm,
    bytes: usize,
) -> Result<String, AllocError> {
    let mut text = head(alloc, plan, form)?;
    let lines = lines_of(alloc, plan, form)?;
    let last = foot(alloc, plan, form, lines.len())?.len();
    let longest = foot(alloc, plan, form, 0)?.len().max(last);
    let room = bytes.saturating_sub(text.len());
    let kept = kept_of(
        lines.as_slice(),
        room.saturating_sub(last),
        room.saturating_sub(longest),
    );
    push_first(&mut text, lines.as_slice(), kept)?;
    text.push_str(foot(alloc, plan, form, kept)?.as_str())?;
    Ok(text)
}

/// Returns the line of each row.
fn lines_of(alloc: Global, plan: &PlanRows, form: PlanForm) -> Result<Vec<String>, AllocError> {
    let mut lines = Vec::with_capacity(alloc, plan.rows.len())?;
    for (place, row) in plan.rows.iter().enumerate() {
        lines.push(line(alloc, form, place, row)?)?;
    }
    Ok(lines)
}

/// Returns the number of first lines to keep: all of them, if they fit into the room for all, and
/// otherwise as many as fit into the room.
fn kept_of(lines: &[String], room_for_all: usize, room: usize) -> usize
    ensures within { result ≤ length lines.now }
    ensures all { sum (map (λ l. length (string_bytes l)) (take (length lines.now) lines.now)) ≤ room_for_all → result ≡ length lines.now }
    ensures fits { ((result ≡ length lines.now) × (sum (map (λ l. length (string_bytes l)) (take result lines.now)) ≤ room_for_all))
        ⊎ (sum (map (λ l. length (string_bytes l)) (take result lines.now)) ≤ room) }
    ensures most { result < length lines.now → room < sum (map (λ l. length (string_bytes l)) (take (result + 1) lines.now)) }
{
    let all = fitting(lines, room_for_all);
    if all == lines.len() {
        all
    } else {
        fitting(lines, room)
    }
}

/// Returns the largest number of first lines that have at most `room` bytes together.
fn fitting(lines: &[String], room: usize) -> usize
    ensures within { result ≤ length lines.now }
    ensures fits { sum (map (λ l. length (string_bytes l)) (take result lines.now)) ≤ room }
    ensures most { result < length lines.now → room < sum (map (λ l. length (string_bytes l)) (take (result + 1) lines.now)) }
{
    let mut left = room;
    for (kept, line) in lines.iter().enumerate() {
        if left < line.len() {
            return kept;
        }
        left -= line.len();
    }
    lines.len()
}

/// Appends the first lines.
fn push_first(text: &mut String, lines: &[String], kept: usize) -> Result<(), AllocError> {
    for line in lines.iter().take(kept) {
        text.push_str(line.as_str())?;
    }
    Ok(())
}
