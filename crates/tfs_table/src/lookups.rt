//! Looking up the names of a table, and their states and holders.

ghost use Rattle.std.specs.Prelude.{◌≡◌, ◌≢◌, ◌⊎◌, ◌≤◌, ◌<◌, length};
ghost use Rattle.std.specs.Prelude.{slice_get, None, Some, is_some, IfSome, IfOk, IfErr, option_map};
ghost use Rattle.std.specs.Arc.{arc_value};
ghost use Rattle.std.specs.List.{list_any};
ghost use Rattle.std.specs.Str.{bytes_eq};
ghost use Rattle.tfs_rules.specs.History.{state_of, holder_of};
ghost use Rattle.tfs_records.specs.Journal.{acts_of, names_of};
ghost use Rattle.tfs_calls.specs.Refusal.{refusal_value, out_of_memory, no_state};
ghost use Rattle.tfs_table.specs.Table.{model_of, impact_reply};
ghost use Rattle.tfs_calls.specs.Transition.{answer_of};
ghost use Rattle.tfs_calls.specs.Reply.{refused};
ghost use Rattle.tfs_calls.specs.declared.call.Call.TheVariants.{Impact as CallImpact};

use crate::table::Table;
use crate::workspaces::{holder_at, name_at, number_of, state_at, version_of};
use std::sync::Arc;
use tfs_calls::{Impact, Query, Refusal};
use tfs_index::Version;
use tfs_lock::LockInfo;
use tfs_records::Sink;
use tfs_rules::Name;
use tfs_state::Doc;

impl<K: Sink> Table<K> {
    /// Returns the state of a name.
    pub fn state(&self, name: &Name) -> Result<Arc<Doc>, Refusal>
        ensures found { IfOk result (λ doc. state_of (acts_of name.now self.now.journal) ≡ Some (arc_value doc)) }
        ensures absent { IfErr result (λ refusal. (refusal_value refusal ≡ out_of_memory)
            ⊎ ((refusal_value refusal ≡ no_state) × (state_of (acts_of name.now self.now.journal) ≡ None))) }
        ensures memory { IfErr result (λ refusal. refusal_value refusal ≡ out_of_memory → state_of (acts_of name.now self.now.journal) ≢ None) }
    {
        state_at(self.workspaces.as_slice(), name)
    }

    /// Returns the lock information of the holder of a name's lock, if it is locked.
    pub fn holder(&self, name: &Name) -> Option<&Arc<LockInfo>>
        ensures value { option_map (λ info. arc_value info.now) result ≡ holder_of (acts_of name.now self.now.journal) }
    {
        holder_at(self.workspaces.as_slice(), name)
    }

    /// Returns the version of the state of a name, if it has one.
    pub fn version(&self, name: &Name) -> Option<&Arc<Version>>
        ensures value { option_map (λ version. arc_value version.now) result ≡ state_of (acts_of name.now self.now.journal) }
    {
        version_of(self.workspaces.as_slice(), name)
    }

    /// Returns the number of a name among the journal's names, from 0, in the order of their first
    /// occurrence; none if the journal doesn't have it. It stays the same while the table lives.
    pub fn number(&self, name: &Name) -> Option<usize>
        ensures found { IfSome result (λ number. slice_get (names_of self.now.journal) number ≡ Some name.now) }
        ensures most { IfSome result (λ number. number < 1024) }
        ensures absent { is_some result ≡ list_any (bytes_eq name.now) (names_of self.now.journal) }
    {
        number_of(self.workspaces.as_slice(), name)
    }

    /// Returns the name with this number, if there is one.
    pub fn name(&self, number: usize) -> Option<&Name>
        ensures value { option_map (λ name. name.now) result ≡ slice_get (names_of self.now.journal) number }
    {
        name_at(self.workspaces.as_slice(), number)
    }

    /// Returns what a query chooses in the state of a name.
    pub fn impact(&self, name: &Name, query: &Query) -> Result<Impact, Refusal>
        ensures answered { (impact_reply result ≡ answer_of (model_of self.now) (CallImpact name.now query.now))
            ⊎ (impact_reply result ≡ refused out_of_memory) }
        ensures memory { IfErr result (λ refusal. refusal_value refusal ≡ out_of_memory → state_of (acts_of name.now self.now.journal) ≢ None) }
        ensures texts { IfErr result (λ refusal. refusal_value refusal ≡ out_of_memory
            → (0 < length query.now.texts) × (length query.now.texts ≤ 64)) }
    {
        let Some(version) = self.version(name) else {
            return Err(Refusal::NoState);
        };
        let chosen = query.choose(self.alloc, version)?;
        Ok(Impact {
            version: version.clone()?,
            chosen,
            position: self.position(),
        })
    }
}
