//! The parts of a plan's impact in each form: the beginning, a line for each row, and the end.

use crate::rows::{Link, Outcome, PlanRow, PlanRows};
use crate::text::PlanForm;
use crate::words::{push_code, push_label, push_quoted};
use serde_json::{Value, json};
use std::alloc::{AllocError, Global};
use tfs_printed::{push_json, push_printed};

/// The first line of a comment, by which a pipeline finds the comment of an earlier run.
const MARKER: &str = "<!-- tfstatectl impact -->";

/// Returns the beginning of a text.
pub(crate) fn head(alloc: Global, plan: &PlanRows, form: PlanForm) -> Result<String, AllocError> {
    let summary = summary(alloc, plan)?;
    match form {
        PlanForm::Lines => format!(in alloc; "{summary}\n"),
        PlanForm::Markdown => format!(in alloc; "{MARKER}\n**Impact of the plan**: {summary}\n\n"),
        PlanForm::Mermaid => String::from_str(
            alloc,
            "flowchart LR\n  classDef removed fill:#f99\n  classDef updated fill:#fd9\n  classDef unknown stroke-dasharray:4\n",
        ),
        PlanForm::Dot => String::from_str(alloc, "digraph {\n"),
        PlanForm::Json => json_head(alloc, plan),
    }
}

/// Returns the numbers of instances in words.
fn summary(alloc: Global, plan: &PlanRows) -> Result<String, AllocError> {
    let (removed, updated, created) = (plan.removed, plan.updated, plan.created);
    let (reached, unknown) = (plan.reached, plan.unknown);
    let mut text = format!(in alloc;
        "{removed} destroyed or replaced, {updated} updated, {created} created; {reached} beyond the plan depend on them."
    )?;
    if 0 < unknown {
        let more = format!(in alloc; " {unknown} aren't in this state: plan again.")?;
        text.push_str(more.as_str())?;
    }
    Ok(text)
}

/// Returns the beginning of JSON.
fn json_head(alloc: Global, plan: &PlanRows) -> Result<String, AllocError> {
    let (removed, updated, created) = (plan.removed, plan.updated, plan.created);
    let (reached, unknown) = (plan.reached, plan.unknown);
    format!(in alloc;
        "{{\"removed\":{removed},\"updated\":{updated},\"created\":{created},\"reached\":{reached},\"unknown\":{unknown},\"instances\":["
    )
}

/// Returns the end of a text with this number of rows.
pub(crate) fn foot(
    alloc: Global,
    plan: &PlanRows,
    form: PlanForm,
    kept: usize,
) -> Result<String, AllocError> {
    let left = plan.rows.len().saturating_sub(kept);
    match form {
        PlanForm::Json => format!(in alloc; "],\"left_out\":{left}}}\n"),
        PlanForm::Dot if left == 0 => String::from_str(alloc, "}\n"),
        PlanForm::Dot => format!(in alloc; "  \"{left} more\" [shape=plaintext];\n}}\n"),
        PlanForm::Mermaid if 0 < left => format!(in alloc; "  more[\"{left} more\"]\n"),
        PlanForm::Lines if 0 < left => format!(in alloc;
            "{left} more are left out: raise --bytes\n"
        ),
        PlanForm::Markdown if 0 < left => format!(in alloc; "\n{left} more are left out.\n"),
        PlanForm::Mermaid | PlanForm::Lines | PlanForm::Markdown => Ok(String::new(alloc)),
    }
}

/// Returns the line of the row at a place.
pub(crate) fn line(
    alloc: Global,
    form: PlanForm,
    place: usize,
    row: &PlanRow,
) -> Result<String, AllocError> {
    let mut text = String::new(alloc);
    match form {
        PlanForm::Lines => push_words(&mut text, row)?,
        PlanForm::Markdown => push_item(alloc, &mut text, row)?,
        PlanForm::Mermaid => push_mermaid(alloc, &mut text, place, row)?,
        PlanForm::Dot => push_dot(alloc, &mut text, row)?,
        PlanForm::Json => push_value(alloc, &mut text, place, row)?,
    }
    Ok(text)
}

/// Returns the word for what happens to an instance.
fn word_of(outcome: Outcome) -> &'static str {
    match outcome {
        Outcome::Destroyed => "destroyed",
        Outcome::Replaced => "replaced",
        Outcome::Forgotten => "forgotten",
        Outcome::Updated => "updated",
        Outcome::Unknown => "unknown",
        Outcome::Reached => "reached",
    }
}

/// Appends a line for people.
fn push_words(text: &mut String, row: &PlanRow) -> Result<(), AllocError> {
    let word = word_of(row.outcome);
    text.push_str(word)?;
    for _ in word.len()..11 {
        text.push(' ')?;
    }
    push_printed(text, row.name.as_str())?;
    for (place, link) in row.chain.iter().enumerate() {
        text.push_str(if place == 0 { " by " } else { " -> " })?;
        push_printed(text, link.name.as_str())?;
    }
    text.push('\n')
}

/// Appends an item of a list in Markdown.
fn push_item(alloc: Global, text: &mut String, row: &PlanRow) -> Result<(), AllocError> {
    text.push_str("- ")?;
    text.push_str(word_of(row.outcome))?;
    text.push(' ')?;
    push_code(alloc, text, row.name.as_str())?;
    for (place, link) in row.chain.iter().enumerate() {
        text.push_str(if place == 0 { " by " } else { " → " })?;
        push_code(alloc, text, link.name.as_str())?;
    }
    text.push('\n')
}

/// Appends the value of a row as JSON, after a comma if it isn't the first.
fn push_value(
    alloc: Global,
    text: &mut String,
    place: usize,
    row: &PlanRow,
) -> Result<(), AllocError> {
    if 0 < place {
        text.push(',')?;
    }
    let chain = Value::Array(names_of(alloc, row.chain.as_slice())?);
    let value =
        json!(in alloc; {"effect": word_of(row.outcome), "instance": row.name.as_str(), "chain": chain})?;
    push_json(text, value.to_string(alloc)?.as_str())
}

/// Returns the addresses of a chain as JSON.
fn names_of(alloc: Global, chain: &[Link]) -> Result<Vec<Value>, AllocError> {
    let mut names = Vec::with_capacity(alloc, chain.len())?;
    for link in chain {
        names.push(Value::try_from_str(alloc, link.name.as_str())?)?;
    }
    Ok(names)
}

/// Returns the instance of a chain that the last one depends on.
fn before_last(chain: &[Link]) -> Option<&Link> {
    match chain {
        [.., before, _] => Some(before),
        _ => None,
    }
}

/// Appends the lines of a row for Graphviz.
fn push_dot(alloc: Global, text: &mut String, row: &PlanRow) -> Result<(), AllocError> {
    text.push_str("  ")?;
    push_quoted(alloc, text, row.name.as_str())?;
    text.push_str(style_of(row.outcome))?;
    text.push_str(";\n")?;
    if let Some(before) = before_last(row.chain.as_slice()) {
        text.push_str("  ")?;
        push_quoted(alloc, text, row.name.as_str())?;
        text.push_str(" -> ")?;
        push_quoted(alloc, text, before.name.as_str())?;
        text.push_str(";\n")?;
    }
    Ok(())
}

/// Returns the attributes of an instance for Graphviz.
fn style_of(outcome: Outcome) -> &'static str {
    match outcome {
        Outcome::Destroyed | Outcome::Replaced | Outcome::Forgotten => {
            " [style=filled, fillcolor=\"#ff9999\"]"
        }
        Outcome::Updated => " [style=filled, fillcolor=\"#ffdd99\"]",
        Outcome::Unknown => " [style=dashed]",
        Outcome::Reached => "",
    }
}

/// Appends the lines of a row for Mermaid.
fn push_mermaid(
    alloc: Global,
    text: &mut String,
    place: usize,
    row: &PlanRow,
) -> Result<(), AllocError> {
    let id = match row.number {
        Some(number) => format!(in alloc; "n{number}")?,
        None => format!(in alloc; "x{place}")?,
    };
    text.push_str("  ")?;
    push_node(alloc, text, id.as_str(), row.name.as_str())?;
    text.push_str(class_of(row.outcome))?;
    text.push('\n')?;
    if let Some(before) = before_last(row.chain.as_slice()) {
        let number = before.number;
        let other = format!(in alloc; "n{number}")?;
        text.push_str("  ")?;
        text.push_str(id.as_str())?;
        text.push_str(" --> ")?;
        push_node(alloc, text, other.as_str(), before.name.as_str())?;
        text.push('\n')?;
    }
    Ok(())
}

/// Appends a node with its label for Mermaid.
fn push_node(alloc: Global, text: &mut String, id: &str, name: &str) -> Result<(), AllocError> {
    text.push_str(id)?;
    text.push_str("[\"")?;
    push_label(alloc, text, name)?;
    text.push_str("\"]")
}

/// Returns the class of an instance for Mermaid.
fn class_of(outcome: Outcome) -> &'static str {
    match outcome {
        Outcome::Destroyed | Outcome::Replaced | Outcome::Forgotten => ":::removed",
        Outcome::Updated => ":::updated",
        Outcome::Unknown => ":::unknown",
        Outcome::Reached => "",
    }
}
