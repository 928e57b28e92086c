//! Makes one push over a new table, so that tests can count and refuse its requests for memory.

use crate::input::named_push;
use anyhow::{Result, bail};
use tfs_calls::Refusal;
use tfs_records::Discard;
use tfs_table::Table;

/// Reads the push of a state and, if requested, applies it; if that is refused, reads and applies
/// it once more. Prints a line with the outcome of each push that is applied.
pub(crate) fn push(rt: &(impl AllocGlobal + Print), is_applied: bool, state: &[u8]) -> Result<()> {
    let Ok(mut table) = Table::new(rt.alloc(), Discard) else {
        bail!("there is no memory for a table");
    };
    push_to(rt, &mut table, is_applied, state)
}

/// Does the same over a table.
fn push_to(
    rt: &(impl AllocGlobal + Print),
    table: &mut Table<Discard>,
    is_applied: bool,
    state: &[u8],
) -> Result<()> {
    if !is_applied {
        named_push(rt.alloc(), state)?;
    } else if !apply(rt, table, state)? {
        apply(rt, table, state)?;
    }
    Ok(())
}

/// Reads the push of a state and applies it. Returns true if it was accepted.
fn apply(
    rt: &(impl AllocGlobal + Print),
    table: &mut Table<Discard>,
    state: &[u8],
) -> Result<bool> {
    let (name, draft) = named_push(rt.alloc(), state)?;
    tell(rt, table.apply(name, draft))
}

/// Prints the outcome of a push. Returns true if it was accepted.
fn tell(rt: &impl Print, outcome: Result<u64, Refusal>) -> Result<bool> {
    match outcome {
        Ok(position) => {
            println!(rt; "done {position}")?;
            Ok(true)
        }
        Err(refusal) => {
            println!(rt; "refused {}", refusal.name())?;
            Ok(false)
        }
    }
}
