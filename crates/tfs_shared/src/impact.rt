//! Impact queries, which never wait.

ghost use Rattle.std.specs.Prelude.{◌≡◌, ◌⊎◌, ℕ, [], Some};
ghost use Rattle.std.specs.Arc.{arc_value};
ghost use Rattle.tfs_calls.specs.Refusal.{refusal_value, no_copy};
ghost use Rattle.tfs_calls.specs.Reply.{refused};
ghost use Rattle.tfs_table.specs.Table.{impact_reply};
ghost use Rattle.tfs_shared.specs.Signed.{IsSigned};
ghost use Rattle.tfs_state.specs.Document.{Document};
ghost use Rattle.tfs_shared.specs.Impact.{AnswersImpact, AnswersQuery};
ghost use Rattle.tfs_published.specs.Beginning.{BeginsWith};
ghost use Rattle.tfs_shared.specs.View.{CountsNothing, missed};

use crate::session::Session;
use crate::shared::Shared;
use std::alloc::Global;
use std::sync::Arc;
use tfs_calls::{Impact, Query, Refusal};
use tfs_index::{MAX_TEXTS, Version};
use tfs_published::{Lookup, Naming};
use tfs_records::Sink;
use tfs_rules::Name;

impl<J: Naming> Session<J> {
    /// Answers an impact query for a name from a snapshot that begins with all that the session has
    /// seen. The answer, also a refusal, is over the journal that the session has seen afterwards.
    /// Never waits.
    ///
    /// # Errors
    ///
    /// Returns `NoCopy` if no such snapshot is handed out; the session counts that, and nothing
    /// else changes. Returns `OutOfMemory` also if the snapshot has lost the version of the name
    /// and the query has 1 to 64 texts.
    pub fn impact<K: Sink>(
        &mut self,
        shared: &Shared<J, K>,
        name: &Name,
        query: &Query,
    ) -> Result<Impact, Refusal>
        ensures answer { ((impact_reply result ≡ refused no_copy) × (self.new ≡ missed self.old))
            ⊎ AnswersImpact self.new.journal name.now query.now (impact_reply result) }
        ensures later { BeginsWith self.new.journal self.old.journal }
        ensures signed { IsSigned J.opening self.old self.new [] }
        ensures counted { CountsNothing self.old self.new }
    {
        self.impact_within(shared, name, query, u64::MAX)
    }

    /// Answers an impact query as `impact` does, if this number of bytes of the journal is synced.
    /// If the snapshot's mark isn't synced, the answer is over a shorter journal, which ends with
    /// what the session had seen or with the name's last change.
    ///
    /// # Errors
    ///
    /// Returns the refusals of `impact`.
    pub fn impact_within<K: Sink>(
        &mut self,
        shared: &Shared<J, K>,
        name: &Name,
        query: &Query,
        synced: u64,
    ) -> Result<Impact, Refusal>
        ensures answer { ((impact_reply result ≡ refused no_copy) × (self.new ≡ missed self.old))
            ⊎ AnswersImpact self.new.journal name.now query.now (impact_reply result) }
        ensures later { BeginsWith self.new.journal self.old.journal }
        ensures signed { IsSigned J.opening self.old self.new [] }
        ensures counted { CountsNothing self.old self.new }
    {
        match self.look_within(name, synced) {
            None => {
                self.miss();
                Err(Refusal::NoCopy)
            }
            Some(Lookup::NoState) => Err(Refusal::NoState),
            Some(Lookup::Lost) => Err(refusal_of_lost(query)),
            Some(Lookup::Kept(version)) => ask(shared.alloc(), version, query, self.seen()),
        }
    }
}

/// Answers a query from a version.
fn ask(
    alloc: Global,
    version: Arc<Version>,
    query: &Query,
    position: u64,
) -> Result<Impact, Refusal>
    ensures { AnswersQuery (arc_value version) query.now position (impact_reply result) }
{
    let chosen = query.choose(alloc, &version)?;
    Ok(Impact {
        version,
        chosen,
        position,
    })
}

/// Returns the refusal of a query if the version of the state is lost. Refusals for the number of
/// its texts depend on the query alone.
fn refusal_of_lost(query: &Query) -> Refusal
    ensures { (d : Document) (position : ℕ) → AnswersQuery d query.now position (refused (refusal_value result)) }
{
    let texts = query.texts.as_slice();
    if texts.is_empty() {
        return Refusal::NoAddress;
    }
    if texts.len() > MAX_TEXTS {
        return Refusal::TooManyAddresses;
    }
    Refusal::OutOfMemory
}
