//! The locks under which acts were made.

ghost use Rattle.std.specs.Prelude.{◌≡◌, option_map, IfOk};
ghost use Rattle.std.specs.Arc.{arc_value};
ghost use Rattle.tfs_versions.specs.Events.{deed_value};
ghost use Rattle.tfs_reports.specs.Acts.{lock_at, lock_after};

use std::alloc::{AllocError, Global};
use std::collections::BTreeMap;
use std::sync::Arc;
use tfs_lock::LockInfo;
use tfs_rules::Name;
use tfs_versions::{Deed, Event};

/// The locks held after the acts read so far, by the names of their workspaces. A workspace that
/// nobody has locked, or whose lock isn't known, is absent.
#[derive(Drop)]
pub(crate) struct Locks {
    held: BTreeMap<String, Arc<LockInfo>>,
}

impl Locks {
    /// Returns no locks.
    pub(crate) fn new(alloc: Global) -> Locks {
        Locks {
            held: BTreeMap::new(alloc),
        }
    }

    /// Returns the lock under which an act was made, if it is known.
    pub(crate) fn lock_of<'a>(&'a self, event: &'a Event) -> Option<&'a LockInfo> {
        lock_at(self.held_by(&event.name), &event.deed)
    }

    /// Records the lock held after an act.
    pub(crate) fn follow(&mut self, alloc: Global, event: &Event) -> Result<(), AllocError> {
        match lock_after(self.held_by(&event.name), &event.deed)? {
            Some(lock) => {
                let name = String::from_str(alloc, event.name.text())?;
                drop(self.held.insert(name, lock)?);
            }
            None => drop(self.held.remove(event.name.text())),
        }
        Ok(())
    }

    /// Forgets all locks, since acts are missing.
    pub(crate) fn forget(&mut self) {
        self.held.clear();
    }

    /// Returns the lock of a workspace, if it is known.
    fn held_by(&self, name: &Name) -> Option<&Arc<LockInfo>> {
        self.held.get(name.text())
    }
}

/// Returns the lock under which an act was made, if it is known: its own, or the lock held before
/// it. None for a forced unlock, because another user may have made it.
fn lock_at<'a>(held: Option<&'a Arc<LockInfo>>, deed: &'a Deed) -> Option<&'a LockInfo>
    ensures { option_map (λ info. info.now) result
        ≡ lock_at (option_map (λ lock. arc_value lock.now) held.entry) (deed_value deed.now) }
{
    match deed {
        Deed::Lock(info) => Some(&**info),
        Deed::Unlock(None) => None,
        Deed::Unlock(Some(_)) | Deed::Push(_, _) | Deed::Delete(_) => match held {
            Some(info) => Some(&**info),
            None => None,
        },
    }
}

/// Returns the lock held after an act, if it is known.
fn lock_after(
    held: Option<&Arc<LockInfo>>,
    deed: &Deed,
) -> Result<Option<Arc<LockInfo>>, AllocError>
    ensures { IfOk result (λ lock. option_map arc_value lock
        ≡ lock_after (option_map (λ lock. arc_value lock.now) held.entry) (deed_value deed.now)) }
{
    match deed {
        Deed::Lock(info) => Ok(Some(info.clone()?)),
        Deed::Unlock(_) => Ok(None),
        Deed::Push(_, _) | Deed::Delete(_) => match held {
            Some(info) => Ok(Some(info.clone()?)),
            None => Ok(None),
        },
    }
}
