//! Changes of a table under its lock.

ghost use Rattle.std.specs.Prelude.{◌≡◌, ◌+◌, ◌<◌, ◌∷◌, ◌++◌, [], length, IfOk, OnOk, OnErr};
ghost use Rattle.tfs_records.specs.Journal.{position_of};
ghost use Rattle.tfs_calls.specs.Transition.{AnswersAct};
ghost use Rattle.tfs_table.specs.Table.{model_of, change_reply};
ghost use Rattle.tfs_shared.specs.LockedState.{ArePublished, HasCause};

use std::sync::Wait;
use tfs_calls::Refusal;
use tfs_published::{Naming, Publisher};
use tfs_records::Sink;
use tfs_table::{Prepared, Table};

/// Makes a change by the session with the number `maker` and publishes it, or returns a refusal.
/// All allocations come before the append to the sink, so a change whose record was appended is
/// always published. If the sink fails, the staged change is never published, since the table is
/// stopped.
#[tactic(auto, using(crate::proofs::Refusing::unstaged_caused, crate::proofs::Refusing::fault_caused, crate::proofs::Refusing::made_caused))]
pub(crate) fn change<J: Naming, K: Sink, R: Wait>(
    rt: &R,
    table: &mut Table<K>,
    publisher: &mut Publisher<J>,
    prepared: Prepared,
    maker: u64,
) -> Result<u64, Refusal>
    requires published { ArePublished table.old publisher.old }
    ensures answered { AnswersAct (model_of table.old) prepared.name prepared.act (change_reply result) (model_of table.new) }
    ensures caused { HasCause table.old table.new prepared (change_reply result) }
    ensures published { ArePublished table.new publisher.new }
    ensures more { OnOk result (length table.new.journal.entries ≡ length table.old.journal.entries + 1) }
    ensures numbered { IfOk result (λ number. (number ≡ position_of table.new.journal) × (position_of table.old.journal < number)) }
    ensures made { OnOk result (publisher.new.makers ≡ publisher.old.makers ++ maker ∷ []) }
    ensures kept { OnErr result ((table.new.journal ≡ table.old.journal) × (publisher.new.makers ≡ publisher.old.makers)) }
{
    // The journal is lawful before the change.
    table.is_kept();
    let ready = match table.ready(prepared) {
        Ok(ready) => ready,
        Err(refusal) => return Err(refusal),
    };
    if publisher.stage(&ready, maker).is_err() {
        drop(ready);
        return Err(Refusal::OutOfMemory);
    }
    let number = ready.number();
    let position = table.finish(ready)?;
    publisher.publish(rt, number);
    Ok(position)
}
