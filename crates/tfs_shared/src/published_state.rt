//! Reads of states from snapshots, which never wait.

ghost use Rattle.std.specs.Prelude.{◌≡◌, [], IfSome, IfNone, IfOk, IfErr, MatchResult};
ghost use Rattle.std.specs.Arc.{arc_value};
ghost use Rattle.tfs_calls.specs.Refusal.{refusal_value, out_of_memory};
ghost use Rattle.tfs_calls.specs.Reply.{state, refused};
ghost use Rattle.tfs_shared.specs.Signed.{IsSigned};
ghost use Rattle.tfs_shared.specs.Locked.{AnswersRead};
ghost use Rattle.tfs_shared.specs.View.{CountsNothing};

use crate::session::Session;
use std::sync::Arc;
use tfs_calls::Refusal;
use tfs_index::Version;
use tfs_published::{Lookup, Naming};
use tfs_rules::Name;
use tfs_state::Doc;

impl<J: Naming> Session<J> {
    /// Returns the state of a name from a snapshot that begins with all that the session has seen.
    /// The answer, also a refusal, is over the journal that the session has seen afterwards. The
    /// refusal is `OutOfMemory` also if the snapshot has lost the version of the name. Never waits.
    /// Returns `None`, and nothing changes, if no such snapshot is handed out.
    pub fn published_state(&mut self, name: &Name) -> Option<Result<Arc<Doc>, Refusal>>
        ensures answered { IfSome result (λ answer. MatchResult answer
            (λ doc. AnswersRead name.now self.old self.new (state (arc_value doc)))
            (λ refusal. AnswersRead name.now self.old self.new (refused (refusal_value refusal)))) }
        ensures kept { IfNone result (self.new ≡ self.old) }
        ensures signed { IsSigned J.opening self.old self.new [] }
        ensures counted { CountsNothing self.old self.new }
    {
        self.published_state_within(name, u64::MAX)
    }

    /// Returns the state of a name as `published_state` does, if this number of bytes of the
    /// journal is synced. If the snapshot's mark isn't synced, the answer is over a shorter
    /// journal, which ends with what the session had seen or with the name's last change.
    pub fn published_state_within(
        &mut self,
        name: &Name,
        synced: u64,
    ) -> Option<Result<Arc<Doc>, Refusal>>
        ensures answered { IfSome result (λ answer. MatchResult answer
            (λ doc. AnswersRead name.now self.old self.new (state (arc_value doc)))
            (λ refusal. AnswersRead name.now self.old self.new (refused (refusal_value refusal)))) }
        ensures kept { IfNone result (self.new ≡ self.old) }
        ensures signed { IsSigned J.opening self.old self.new [] }
        ensures counted { CountsNothing self.old self.new }
    {
        match self.look_within(name, synced)? {
            Lookup::NoState => Some(Err(Refusal::NoState)),
            Lookup::Lost => Some(Err(Refusal::OutOfMemory)),
            Lookup::Kept(version) => Some(state_of(&version)),
        }
    }
}

/// Returns the document of a version.
fn state_of(version: &Version) -> Result<Arc<Doc>, Refusal>
    ensures doc { IfOk result (λ doc. arc_value doc ≡ version.now) }
    ensures memory { IfErr result (λ refusal. refusal_value refusal ≡ out_of_memory) }
{
    Ok(version.doc().clone()?)
}
