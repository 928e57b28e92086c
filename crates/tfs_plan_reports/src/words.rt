//! Addresses in Markdown, Mermaid and Graphviz.

use std::alloc::{AllocError, Global};
use tfs_printed::{push_drawn, push_printed};

/// Appends an address as code in Markdown (CommonMark, section 6.1): between runs of backquotes
/// that are longer than those in it.
pub(crate) fn push_code(alloc: Global, text: &mut String, name: &str) -> Result<(), AllocError> {
    let mut shown = String::with_capacity(alloc, name.len())?;
    push_printed(&mut shown, name)?;
    let run = longest_run(shown.as_str());
    push_backquotes(text, run)?;
    text.push_str(padding(run))?;
    text.push_str(shown.as_str())?;
    text.push_str(padding(run))?;
    push_backquotes(text, run)
}

/// Appends one backquote more than a number.
fn push_backquotes(text: &mut String, run: usize) -> Result<(), AllocError> {
    for _ in 0..run {
        text.push('`')?;
    }
    text.push('`')
}

/// Returns the blank that separates a text with backquotes from those around it.
fn padding(run: usize) -> &'static str {
    if run == 0 { "" } else { " " }
}

/// Returns the length of the longest run of backquotes.
fn longest_run(text: &str) -> usize {
    let mut longest = 0_usize;
    let mut run = 0_usize;
    for c in text.chars() {
        run = if c == '`' { run.saturating_add(1) } else { 0 };
        longest = longest.max(run);
    }
    longest
}

/// Appends an address as a label of Mermaid. Characters that it or HTML interprets are entities.
pub(crate) fn push_label(alloc: Global, text: &mut String, name: &str) -> Result<(), AllocError> {
    let mut label = String::with_capacity(alloc, name.len())?;
    for c in name.chars() {
        match c {
            '"' => label.push_str("#quot;")?,
            '#' => label.push_str("#35;")?,
            '&' => label.push_str("#amp;")?,
            '<' => label.push_str("#lt;")?,
            '>' => label.push_str("#gt;")?,
            _ => label.push(c)?,
        }
    }
    push_printed(text, label.as_str())
}

/// Appends an address as a quoted text of Graphviz.
pub(crate) fn push_quoted(alloc: Global, text: &mut String, name: &str) -> Result<(), AllocError> {
    let mut quoted = String::with_capacity(alloc, name.len())?;
    for c in name.chars() {
        match c {
            '"' => quoted.push_str("\\\"")?,
            '\\' => quoted.push_str("\\\\")?,
            '\n' => quoted.push_str("\\n")?,
            _ => quoted.push(c)?,
        }
    }
    text.push('"')?;
    push_drawn(text, quoted.as_str())?;
    text.push('"')
}
