//! What replies have reported: a session learns it before it answers a query from a snapshot.

ghost use Rattle.std.specs.Prelude.{◌≡◌, []};
ghost use Rattle.tfs_table.specs.Lawful.{IsLawful};
ghost use Rattle.tfs_shared.specs.Signed.{IsSigned};
ghost use Rattle.tfs_published.specs.Beginning.{BeginsWith};
ghost use Rattle.tfs_shared.specs.View.{CountsNothing};

use crate::session::Session;
use crate::shared::Shared;
use std::sync::Wait;
use tfs_published::Naming;
use tfs_records::Sink;

impl<J: Naming> Session<J> {
    /// Records at the shared table what the session has seen, since a reply reports it now. Waits
    /// only for other calls of `tell` and `hear`, and never for the lock of the table; it doesn't
    /// wait if replies have reported as much.
    pub fn tell<K: Sink, R: Wait>(&self, rt: &R, shared: &Shared<J, K>) {
        shared.tell(rt, self.point());
    }

    /// Advances the session to the newest journal that replies of any session have reported, unless
    /// it has seen as much. Waits only for other calls of `tell` and `hear`, and never for the lock
    /// of the table; it doesn't wait if it has seen as much.
    pub fn hear<K: Sink, R: Wait>(&mut self, rt: &R, shared: &Shared<J, K>)
        ensures later { BeginsWith self.new.journal self.old.journal }
        ensures signed { IsSigned J.opening self.old self.new [] }
        ensures lawful { IsLawful self.new.journal }
        ensures counted { CountsNothing self.old self.new }
        ensures misses { self.new.misses ≡ self.old.misses }
    {
        match shared.told_after(rt, self.seen()) {
            Some(told) => self.catch_up(&told),
            None => self.is_kept(),
        }
    }
}
