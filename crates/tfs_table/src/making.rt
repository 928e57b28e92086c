//! Making a change ready: everything it needs before it is entered.

ghost use Rattle.std.specs.Prelude.{◌≡◌, ◌<◌, ◌⊎◌, All, None, Some, IfOk, IfErr, OnOk, option_map, slice_get, length, vec_len, vec_capacity};
ghost use Rattle.std.specs.Arc.{arc_value};
ghost use Rattle.tfs_rules.specs.Act.{ActValue, act_value};
ghost use Rattle.tfs_rules.specs.History.{state_after};
ghost use Rattle.tfs_records.specs.Journal.{Journal, names_of, with_entry};
ghost use Rattle.tfs_calls.specs.Pushed.{pushed_by};
ghost use Rattle.tfs_calls.specs.Refusal.{refusal_value, out_of_memory};
ghost use Rattle.tfs_calls.specs.Transition.{act_refusal, open_model, MayLackMemory};
ghost use Rattle.tfs_table.specs.Lawful.{IsLawful};
ghost use Rattle.tfs_table.specs.Workspaces.{standing_at, Rise, IsFound, AreWorkspacesOf, HasVersion};

use crate::judge::judge;
use crate::prepared::Prepared;
use crate::ready::Ready;
use crate::workspace::Workspace;
use std::alloc::AllocError;
use std::snapshot::Snapshot;
use std::sync::Arc;
use tfs_calls::Refusal;
use tfs_index::Version;
use tfs_records::{Base, Entry};
use tfs_rules::{Act, Name};

/// Judges an entry, and reserves room for it. Returns the index of its name's workspace, or where
/// to insert one.
pub(crate) fn make_way(
    entries: &mut Vec<Entry>,
    workspaces: &mut Vec<Workspace>,
    entry: &Entry,
) -> Result<Result<usize, usize>, Refusal>
    requires rise { Rise workspaces.old.items }
    ensures same { (entries.new.items ≡ entries.old.items) × (workspaces.new.items ≡ workspaces.old.items) }
    ensures room { OnOk result ((vec_len entries.new < vec_capacity entries.new) × (vec_len workspaces.new < vec_capacity workspaces.new)) }
    ensures found { IfOk result (IsFound entry.now.name workspaces.old.items) }
    ensures accepted { OnOk result ((j : Journal) → AreWorkspacesOf j workspaces.old.items → length j.entries ≡ length entries.old.items
        → act_refusal (open_model j) entry.now.name entry.now.act ≡ None) }
    ensures refused { IfErr result (λ refusal. (refusal_value refusal ≡ out_of_memory)
        ⊎ ((j : Journal) → AreWorkspacesOf j workspaces.old.items → length j.entries ≡ length entries.old.items
        → act_refusal (open_model j) entry.now.name entry.now.act ≡ Some (refusal_value refusal))) }
    ensures memory { IfErr result (λ refusal. refusal_value refusal ≡ out_of_memory → (j : Journal) → AreWorkspacesOf j workspaces.old.items
        → length j.entries ≡ length entries.old.items → MayLackMemory (open_model j) entry.now.name entry.now.act) }
{
    let place = judge(
        entries.len(),
        workspaces.as_slice(),
        &entry.name,
        &entry.act,
    )?;
    make_room(entries, workspaces)?;
    Ok(place)
}

/// Reserves room for one more entry and one more workspace.
fn make_room(entries: &mut Vec<Entry>, workspaces: &mut Vec<Workspace>) -> Result<(), AllocError>
    ensures entries { entries.new.items ≡ entries.old.items }
    ensures workspaces { workspaces.new.items ≡ workspaces.old.items }
    ensures room { OnOk result (vec_len entries.new < vec_capacity entries.new) }
    ensures place { OnOk result (vec_len workspaces.new < vec_capacity workspaces.new) }
{
    entries.reserve(1)?;
    workspaces.reserve(1)?;
    Ok(())
}

/// Turns a prepared change that the journal accepts into a ready one, with all that is to be
/// entered.
pub(crate) fn make_ready(
    base: &Base,
    entries: &Vec<Entry>,
    workspaces: &[Workspace],
    place: Result<usize, usize>,
    prepared: Prepared,
) -> Result<Ready, AllocError>
    requires found { IsFound prepared.name workspaces.now place }
    requires workspaces { AreWorkspacesOf (record { base = base.now; entries = entries.now.items }) workspaces.now }
    requires versions { All HasVersion workspaces.now }
    requires lawful { IsLawful (record { base = base.now; entries = entries.now.items }) }
    requires accepted { act_refusal (open_model (record { base = base.now; entries = entries.now.items })) prepared.name prepared.act ≡ None }
    ensures value { IfOk result (λ ready. ready ≡ record {
      journal = record { base = base.now; entries = entries.now.items };
      entry = prepared;
    }) }
{
    let Prepared {
        entry,
        name,
        act,
        pushed,
        text,
    } = prepared;
    let number = number_after(workspaces, &name, place);
    let version = match version_after(workspaces, &name, place, &act, pushed) {
        Ok(version) => version,
        Err(error) => {
            drop(entry);
            drop(name);
            drop(act);
            drop(text);
            return Err(error);
        }
    };
    Ok(Ready {
        entry,
        name,
        number,
        act,
        version,
        text,
        base: Snapshot::of(base),
        entries: Snapshot::of(entries),
    })
}

/// Returns the number that a name has among the names once it has one more entry.
fn number_after(workspaces: &[Workspace], name: &Name, place: Result<usize, usize>) -> usize
    requires { IsFound name.now workspaces.now place }
    ensures { (j : Journal) (act : ActValue) → AreWorkspacesOf j workspaces.now
        → slice_get (names_of (with_entry j (record { name = name.now; act = act }))) result ≡ Some name.now }
{
    // Only the contract uses the name: the workspace at the index has it.
    let _ = name;
    match place {
        Ok(place) => workspaces[place].number,
        Err(_) => workspaces.len(),
    }
}

/// Returns the version that a name has after an act, if it has a state then.
fn version_after(
    workspaces: &[Workspace],
    name: &Name,
    place: Result<usize, usize>,
    act: &Act,
    pushed: Option<Arc<Version>>,
) -> Result<Option<Arc<Version>>, AllocError>
    requires found { IsFound name.now workspaces.now place }
    requires versions { All HasVersion workspaces.now }
    requires pushed { option_map arc_value pushed ≡ pushed_by (act_value act.now) }
    ensures value { IfOk result (λ version. option_map arc_value version
        ≡ state_after (standing_at name.now workspaces.now).state (act_value act.now)) }
{
    match act {
        Act::Push(..) => Ok(pushed),
        Act::Delete(_) => Ok(None),
        Act::Lock(_) | Act::Unlock(_) => version_at(workspaces, name, place),
    }
}

/// Returns the version of a name, if it has a state.
fn version_at(
    workspaces: &[Workspace],
    name: &Name,
    place: Result<usize, usize>,
) -> Result<Option<Arc<Version>>, AllocError>
    requires found { IsFound name.now workspaces.now place }
    requires versions { All HasVersion workspaces.now }
    ensures value { IfOk result (λ version. option_map arc_value version ≡ (standing_at name.now workspaces.now).state) }
{
    // Only the contract uses the name: the workspace at the index has it.
    let _ = name;
    let Ok(place) = place else {
        return Ok(None);
    };
    match &workspaces[place].version {
        Some(version) => Ok(Some(version.clone()?)),
        None => Ok(None),
    }
}
