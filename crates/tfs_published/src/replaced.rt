//! Versions that readers no longer see.

ghost use Rattle.std.specs.Prelude.{◌≡◌, None};

use std::mem::replace;
use std::sync::Arc;
use tfs_index::Version;

/// Versions that changes have replaced. Each is kept as long as a published copy has it, so that
/// publishing frees none. The caller takes it afterwards and drops it without holding the lock.
#[derive(Drop)]
pub struct Replaced {
    latest: Option<Arc<Version>>,
    earlier: Option<Arc<Version>>,
}

impl Replaced {
    /// Returns an empty collection.
    pub fn none() -> Replaced
        ensures value { result ≡ record { latest = None; earlier = None } }
    {
        Replaced {
            latest: None,
            earlier: None,
        }
    }

    /// Adds the version that a published change has replaced, if there is one. The copy that
    /// readers don't enter has it until the next change is published. That copy no longer has the
    /// version that the previous change replaced.
    pub fn add(&mut self, version: Option<Arc<Version>>)
        ensures value { self.new ≡ record { latest = version; earlier = self.old.latest } }
    {
        self.earlier = replace(&mut self.latest, version);
    }

    /// Takes the version that no copy has any more.
    pub fn take(&mut self) -> Option<Arc<Version>>
        ensures value { result ≡ self.old.earlier }
        ensures left { self.new ≡ record { latest = self.old.latest; earlier = None } }
    {
        self.earlier.take()
    }
}
