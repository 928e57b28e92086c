//! The rule of published copies, and the steps under it.

ghost use Rattle.std.specs.Prelude.{◌≡◌, [], drop, fold, IfSome, IfOk};
ghost use Rattle.left_right.specs.Sides.{view};
ghost use Rattle.tfs_published.specs.Point.{IsPoint};
ghost use Rattle.tfs_published.specs.Published.{absorbed, updated, Queues};
ghost use Rattle.tfs_published.specs.Snapshot.{IsSeen};

use crate::naming::Naming;
use crate::operation::Operation;
use crate::published::Published;
use crate::snapshot::Snapshot;
use crate::token::Token;
use crossbeam_utils::rule::{Outcome, Protocol};
use left_right::reader::Reader;
use left_right::writer::Writer;
use std::alloc::AllocError;
use std::marker::PhantomData;
use std::sync::Wait;
use tfs_rules::Name;

/// The rule: a published copy represents the journal of its token, and has the token of each name's
/// last change.
pub struct Follows<J: Naming>(PhantomData<J>);

impl<J: Naming> Protocol<Published, ()> for Follows<J> {
    ghost use Rattle.tfs_published.specs.Published.{StandsFor};

    ghost holds = { λ copy views. StandsFor J.book J.opening copy };

    ghost first = { tt };
}

/// What a reader knows of a copy that it has entered.
pub struct Sees<J: Naming>(PhantomData<J>);

impl<J: Naming> Outcome<Published, ()> for Sees<J> {
    ghost use Rattle.tfs_published.specs.Published.{StandsFor};

    ghost then = { λ before x y after. StandsFor J.book J.opening y };
}

pub type CopyReader<J> = Reader<Published, (), Follows<J>>;

pub type CopyWriter<J> = Writer<Published, Operation, (), Follows<J>>;

/// Enters a copy and reads a name, for a session that has seen the changes of a token, if this
/// number of bytes is synced. Returns no snapshot if it can't enter a copy that has these changes.
/// Never waits.
pub(crate) fn enter<J: Naming>(
    reader: CopyReader<J>,
    token: &Token,
    name: &Name,
    synced: u64,
) -> (CopyReader<J>, Option<Snapshot>)
    requires point { IsPoint J.book J.opening token.now }
    ensures value { IfSome result.1 (λ snapshot. IsSeen J.book J.opening token.now name.now snapshot) }
{
    match reader.enter_as::<Sees<J>>() {
        Ok(reading) => {
            let snapshot = reading.get().snapshot(token, name, synced);
            (reading.leave(), snapshot)
        }
        Err(reader) => (reader, None),
    }
}

/// Publishes the copy with the queued update, which adds one more change.
pub(crate) fn publish<J: Naming, R: Wait>(rt: &R, writer: CopyWriter<J>) -> CopyWriter<J>
    requires queued { Queues J.opening writer.desk.shown.value (drop writer.behind writer.log.items) }
    ensures value { (queued : Queues J.opening writer.desk.shown.value (drop writer.behind writer.log.items))
        → result.desk.shown.value ≡ updated writer.desk.shown.value queued.update }
    ensures pending { drop result.behind result.log.items ≡ [] }
{
    // The outcome is no error: each operation can be absorbed.
    let (writer, _outcome) = writer.publish_as::<Sees<J>, R>(rt);
    writer
}

/// Queues an operation that changes nothing. Returns false if memory is refused.
#[tactic(auto, using(crate::proofs::Room::nothing_more))]
fn queue_nothing<J: Naming>(writer: &mut CopyWriter<J>) -> bool
    requires same { fold absorbed writer.old.desk.shown.value (drop writer.old.behind writer.old.log.items) ≡ writer.old.desk.shown.value }
    ensures same { fold absorbed writer.new.desk.shown.value (drop writer.new.behind writer.new.log.items) ≡ writer.new.desk.shown.value }
    ensures shown { writer.new.desk.shown.value ≡ writer.old.desk.shown.value }
{
    match writer.append(Operation::Nothing) {
        Ok(()) => true,
        Err(_) => false,
    }
}

/// Publishes the copy after queued operations that change nothing.
fn publish_same<J: Naming, R: Wait>(rt: &R, writer: CopyWriter<J>) -> CopyWriter<J>
    requires same { fold absorbed writer.desk.shown.value (drop writer.behind writer.log.items) ≡ writer.desk.shown.value }
    ensures shown { result.desk.shown.value ≡ writer.desk.shown.value }
    ensures pending { drop result.behind result.log.items ≡ [] }
{
    // The outcome is no error: each operation can be absorbed.
    let (writer, _outcome) = writer.publish_as::<Sees<J>, R>(rt);
    writer
}

/// Reserves room for two operations, the most that are ever queued: one that the published copy has
/// and the other lacks, and one that neither has. Two operations that change nothing are queued and
/// published; a second publication removes them from the queue.
pub(crate) fn with_room<J: Naming, R: Wait>(
    rt: &R,
    writer: CopyWriter<J>,
) -> Result<CopyWriter<J>, AllocError>
    requires idle { drop writer.behind writer.log.items ≡ [] }
    ensures shown { IfOk result (λ made. made.desk.shown.value ≡ writer.desk.shown.value) }
    ensures pending { IfOk result (λ made. drop made.behind made.log.items ≡ []) }
{
    let mut writer = writer;
    let first = queue_nothing(&mut writer);
    let second = queue_nothing(&mut writer);
    let writer = publish_same(rt, writer);
    let writer = publish_same(rt, writer);
    if first && second {
        return Ok(writer);
    }
    writer.take(rt);
    Err(AllocError)
}
