//! A workspace's record: the result of its history.

ghost use Rattle.std.specs.Prelude.{◌≡◌, ◌∷◌, [], ◌++◌, None, option_map, unwrap_or};
ghost use Rattle.std.specs.Arc.{arc_value};
ghost use Rattle.tfs_rules.specs.Act.{act_value};
ghost use Rattle.tfs_rules.specs.History.{History, standing_of};
ghost use Rattle.tfs_rules.specs.Verdict.{verdict_of, verdict_over, lock_verdict, unlock_verdict, write_verdict, push_verdict};
ghost use Rattle.tfs_rules.specs.declared.verdict.Verdict.{Verdict};
ghost use Rattle.tfs_rules.specs.declared.verdict.Verdict.TheVariants.{Accept};

use crate::act::Act;
use crate::verdict::Verdict;
use std::marker::Model;
use std::sync::Arc;
use tfs_lock::{Id, LockInfo};
use tfs_state::Doc;

/// The result of a workspace's accepted acts: its current state and the holder of its lock, if
/// there are any.
#[derive(Drop)]
pub struct Record {
    state: Option<Arc<Doc>>,
    holder: Option<Arc<LockInfo>>,
}

impl Model for Record {
    ghost use Rattle.std.specs.Prelude.{option_map};
    ghost use Rattle.std.specs.Arc.{arc_value};
    ghost use Rattle.tfs_rules.specs.History.{Standing};

    ghost Value = { Standing };

    ghost view = { λ r. record { state = option_map arc_value r.state; holder = option_map arc_value r.holder } };
}

impl Record {
    /// Creates the record of a workspace without acts.
    pub fn empty() -> Record
        ensures value { result ≡ standing_of [] }
    {
        Record {
            state: None,
            holder: None,
        }
    }

    /// Returns `Accept` if the workspace accepts the act in its current state, or the first reason
    /// for a refusal.
    pub fn verdict(&self, act: &Act) -> Verdict
        ensures over_standing { result ≡ verdict_over self.now (act_value act.now) }
        ensures over_history { (h : History) → self.now ≡ standing_of h
            → result ≡ verdict_of h (act_value act.now) }
    {
        match act {
            Act::Lock(info) => lock_verdict(&self.holder, info),
            Act::Unlock(id) => unlock_verdict(&self.holder, id),
            Act::Push(id, pushed) => match refusing_verdict(&self.holder, id) {
                Some(refusal) => refusal,
                None => push_verdict(&self.state, pushed),
            },
            Act::Delete(id) => match refusing_verdict(&self.holder, id) {
                Some(refusal) => refusal,
                None => Verdict::Accept,
            },
        }
    }

    /// Applies an act whose verdict is `Accept`.
    pub fn commit(&mut self, act: Act)
        requires { verdict_over self.old (act_value act) ≡ Accept }
        ensures over_history { (h : History) → self.old ≡ standing_of h
            → self.new ≡ standing_of (h ++ act_value act ∷ []) }
    {
        match act {
            Act::Lock(info) => self.holder = Some(info),
            Act::Unlock(_) => self.holder = None,
            Act::Push(_, pushed) => self.state = Some(pushed),
            Act::Delete(_) => self.state = None,
        }
    }

    /// Returns the current state.
    pub fn state(&self) -> Option<&Arc<Doc>>
        ensures value { option_map (λ doc. arc_value doc.now) result ≡ self.now.state }
    {
        self.state.as_ref()
    }

    /// Returns the information of the lock that is held.
    pub fn holder(&self) -> Option<&Arc<LockInfo>>
        ensures value { option_map (λ info. arc_value info.now) result ≡ self.now.holder }
    {
        self.holder.as_ref()
    }
}

/// Returns the verdict on a lock.
fn lock_verdict(holder: &Option<Arc<LockInfo>>, info: &LockInfo) -> Verdict
    ensures { result ≡ lock_verdict (option_map arc_value holder.now) info.now }
{
    let Some(held) = holder else {
        return Verdict::Accept;
    };
    if held.bytes() == info.bytes() {
        Verdict::Accept
    } else {
        Verdict::Locked
    }
}

/// Returns the verdict on an unlock.
fn unlock_verdict(holder: &Option<Arc<LockInfo>>, id: &Option<Id>) -> Verdict
    ensures { result ≡ unlock_verdict (option_map arc_value holder.now) id.now }
{
    let (Some(held), Some(id)) = (holder, id) else {
        return Verdict::Accept;
    };
    if held.id().text() == id.text() {
        Verdict::Accept
    } else {
        Verdict::Locked
    }
}

/// Returns the verdict that refuses a write because of the lock, or `None` if the lock permits the
/// write.
fn refusing_verdict(holder: &Option<Arc<LockInfo>>, id: &Option<Id>) -> Option<Verdict>
    ensures { (otherwise : Verdict)
        → unwrap_or result otherwise ≡ write_verdict (option_map arc_value holder.now) id.now otherwise }
{
    match (holder, id) {
        (None, None) => None,
        (None, Some(_)) => Some(Verdict::LockLost),
        (Some(_), None) => Some(Verdict::Locked),
        (Some(held), Some(id)) => {
            if held.id().text() == id.text() {
                None
            } else {
                Some(Verdict::Locked)
            }
        }
    }
}

/// Returns the verdict on a push over the stored state, regardless of the lock.
fn push_verdict(stored: &Option<Arc<Doc>>, pushed: &Doc) -> Verdict
    ensures { result ≡ push_verdict (option_map arc_value stored.now) pushed.now }
{
    let Some(stored) = stored else {
        return Verdict::Accept;
    };
    if stored.lineage() != pushed.lineage() {
        return Verdict::LineageDiffers;
    }
    if pushed.serial() < stored.serial() {
        return Verdict::SerialTooLow;
    }
    if pushed.serial() == stored.serial() && stored.bytes() != pushed.bytes() {
        return Verdict::SerialReused;
    }
    Verdict::Accept
}
