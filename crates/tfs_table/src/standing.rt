//! The records of workspaces: their state and holder.

ghost use Rattle.std.specs.Prelude.{◌≡◌, Some, None, IfOk, option_map};
ghost use Rattle.std.specs.Arc.{arc_value};

use std::alloc::AllocError;
use std::sync::Arc;
use tfs_lock::LockInfo;
use tfs_rules::{Act, Record};
use tfs_state::Doc;

/// Returns the record of a state and a holder, if there are any.
pub(crate) fn record_of(
    state: Option<&Arc<Doc>>,
    holder: Option<&Arc<LockInfo>>,
) -> Result<Record, AllocError>
    ensures { IfOk result (λ kept. kept ≡ record {
      state = option_map (λ doc. arc_value doc.now) state.entry;
      holder = option_map (λ info. arc_value info.now) holder.entry;
    }) }
{
    let kept = state_record(state)?;
    match holder {
        Some(info) => Ok(with_lock(kept, info.clone()?)),
        None => Ok(kept),
    }
}

/// Returns the record of a state, if there is one, without a holder.
fn state_record(state: Option<&Arc<Doc>>) -> Result<Record, AllocError>
    ensures { IfOk result (λ kept. kept ≡ record { state = option_map (λ doc. arc_value doc.now) state.entry; holder = None }) }
{
    match state {
        Some(doc) => Ok(push_record(doc.clone()?)),
        None => Ok(Record::empty()),
    }
}

/// Returns the record of a pushed document.
fn push_record(doc: Arc<Doc>) -> Record
    ensures { result ≡ record { state = Some (arc_value doc); holder = None } }
{
    let mut pushed = Record::empty();
    pushed.commit(Act::Push(None, doc));
    pushed
}

/// Adds a holder to a record that has none.
fn with_lock(mut kept: Record, info: Arc<LockInfo>) -> Record
    requires { kept.holder ≡ None }
    ensures { result ≡ record { state = kept.state; holder = Some (arc_value info) } }
{
    kept.commit(Act::Lock(info));
    kept
}
