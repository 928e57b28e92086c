//! Judging an act.

ghost use Rattle.std.specs.Prelude.{◌≡◌, ◌≢◌, ◌⊎◌, None, Some, IfOk, IfErr, OnOk, OnErr, length, option_map};
ghost use Rattle.std.specs.Arc.{arc_value};
ghost use Rattle.tfs_rules.specs.Act.{act_value};
ghost use Rattle.tfs_rules.specs.Verdict.{verdict_over};
ghost use Rattle.tfs_rules.specs.declared.verdict.Verdict.TheVariants.{Accept, Locked};
ghost use Rattle.tfs_records.specs.Journal.{Journal};
ghost use Rattle.tfs_calls.specs.Refusal.{refusal_value, out_of_memory};
ghost use Rattle.tfs_calls.specs.Transition.{act_refusal, open_model, refusal_of, full_refusal};
ghost use Rattle.tfs_table.specs.Workspaces.{standing_at, Rise, IsFound, AreWorkspacesOf};

use crate::workspace::Workspace;
use crate::workspaces::place_of;
use crate::{MAX_ENTRIES, MAX_NAMES};
use std::sync::Arc;
use tfs_calls::Refusal;
use tfs_lock::LockInfo;
use tfs_rules::{Act, Name, Record, Verdict};

/// Judges an act, given the workspaces and the number of entries. Returns the index of its name's
/// workspace, or where to insert one; or the first refusal by the rules and the limits.
/// `OutOfMemory` only replaces `Locked`.
pub(crate) fn judge(
    count: usize,
    workspaces: &[Workspace],
    name: &Name,
    act: &Act,
) -> Result<Result<usize, usize>, Refusal>
    requires rise { Rise workspaces.now }
    ensures found { IfOk result (IsFound name.now workspaces.now) }
    ensures accepted { OnOk result ((j : Journal) → AreWorkspacesOf j workspaces.now → length j.entries ≡ count
        → act_refusal (open_model j) name.now (act_value act.now) ≡ None) }
    ensures accept { OnOk result (verdict_over (standing_at name.now workspaces.now) (act_value act.now) ≡ Accept) }
    ensures refused { IfErr result (λ refusal. (refusal_value refusal ≡ out_of_memory)
        ⊎ ((j : Journal) → AreWorkspacesOf j workspaces.now → length j.entries ≡ count
        → act_refusal (open_model j) name.now (act_value act.now) ≡ Some (refusal_value refusal))) }
    ensures refusing { OnErr result ((j : Journal) → AreWorkspacesOf j workspaces.now → length j.entries ≡ count
        → act_refusal (open_model j) name.now (act_value act.now) ≢ None) }
    ensures memory { IfErr result (λ refusal. refusal_value refusal ≡ out_of_memory
        → verdict_over (standing_at name.now workspaces.now) (act_value act.now) ≡ Locked) }
{
    let place = place_of(workspaces, name);
    judge_by_rules(workspaces, name, place, act)?;
    judge_by_limits(workspaces.len(), place.is_err(), count)?;
    Ok(place)
}

/// Judges an act by the rules, given the index of its name's workspace, if there is one.
fn judge_by_rules(
    workspaces: &[Workspace],
    name: &Name,
    place: Result<usize, usize>,
    act: &Act,
) -> Result<(), Refusal>
    requires { IsFound name.now workspaces.now place }
    ensures accepted { OnOk result (refusal_of (standing_at name.now workspaces.now).holder
        (verdict_over (standing_at name.now workspaces.now) (act_value act.now)) ≡ None) }
    ensures refused { IfErr result (λ refusal. (refusal_value refusal ≡ out_of_memory)
        ⊎ (refusal_of (standing_at name.now workspaces.now).holder
        (verdict_over (standing_at name.now workspaces.now) (act_value act.now)) ≡ Some (refusal_value refusal))) }
    ensures refusing { OnErr result (refusal_of (standing_at name.now workspaces.now).holder
        (verdict_over (standing_at name.now workspaces.now) (act_value act.now)) ≢ None) }
    ensures memory { IfErr result (λ refusal. refusal_value refusal ≡ out_of_memory
        → verdict_over (standing_at name.now workspaces.now) (act_value act.now) ≡ Locked) }
{
    // Only the contract uses the name: the workspace at the index has it.
    let _ = name;
    match place {
        Ok(place) => {
            let standing = &workspaces[place].standing;
            heed(standing.verdict(act), standing.holder())
        }
        Err(_) => heed(Record::empty().verdict(act), None),
    }
}

/// Returns the refusal for a verdict. `Locked` carries the holder's lock information.
fn heed(verdict: Verdict, holder: Option<&Arc<LockInfo>>) -> Result<(), Refusal>
    ensures accepted { OnOk result (refusal_of (option_map (λ info. arc_value info.now) holder.entry) verdict ≡ None) }
    ensures refused { IfErr result (λ refusal. (refusal_value refusal ≡ out_of_memory)
        ⊎ (refusal_of (option_map (λ info. arc_value info.now) holder.entry) verdict ≡ Some (refusal_value refusal))) }
    ensures refusing { OnErr result (refusal_of (option_map (λ info. arc_value info.now) holder.entry) verdict ≢ None) }
    ensures memory { IfErr result (λ refusal. refusal_value refusal ≡ out_of_memory → verdict ≡ Locked) }
{
    match verdict {
        Verdict::Accept => Ok(()),
        Verdict::Locked => match holder {
            Some(info) => Err(Refusal::Locked(info.clone()?)),
            None => Err(Refusal::LockLost),
        },
        Verdict::LockLost => Err(Refusal::LockLost),
        Verdict::LineageDiffers => Err(Refusal::LineageDiffers),
        Verdict::SerialTooLow => Err(Refusal::SerialTooLow),
        Verdict::SerialReused => Err(Refusal::SerialReused),
    }
}

/// Judges by the limits, given the number of names, whether the name is new, and the number of
/// entries.
fn judge_by_limits(names: usize, is_new: bool, entries: usize) -> Result<(), Refusal>
    ensures accepted { OnOk result (full_refusal names is_new entries ≡ None) }
    ensures refused { IfErr result (λ refusal. full_refusal names is_new entries ≡ Some (refusal_value refusal)) }
    ensures memory { IfErr result (λ refusal. refusal_value refusal ≢ out_of_memory) }
{
    if MAX_NAMES <= names && is_new {
        return Err(Refusal::TableFull);
    }
    if MAX_ENTRIES <= entries {
        return Err(Refusal::JournalFull);
    }
    Ok(())
}
