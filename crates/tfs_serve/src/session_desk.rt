//! The desk over a session.

ghost use Rattle.std.specs.Prelude.{◌≡◌, ◌≢◌, ◌⊎◌, [], Some, None, IfOk, IfErr, MatchResult};
ghost use Rattle.std.specs.Arc.{arc_value};
ghost use Rattle.tfs_calls.specs.Draft.{CarriesFittingState, HasFittingState, TakesNoMemory, act_of, draft_refusal};
ghost use Rattle.tfs_calls.specs.Refusal.{refusal_value, out_of_memory};
ghost use Rattle.tfs_calls.specs.Reply.{reply_value, state, refused};
ghost use Rattle.tfs_calls.specs.declared.call.Call.TheVariants.{Read as CallRead, Change, Impact};
ghost use Rattle.tfs_shared.specs.Locked.{AnswersRead, HasNoCopy};
ghost use Rattle.tfs_shared.specs.Signed.{IsSigned};
ghost use Rattle.tfs_shared.specs.View.{CountsNothing};
ghost use Rattle.tfs_serve.specs.Session.{SessionStep};

use json::Scratch;
use std::alloc::Global;
use std::sync::atomic::AtomicBool;
use std::sync::{Arc, Mutex, MutexGuard, Wait};
use tfs_calls::{
    Call, Draft, Query, Raw, Refusal, Reply, a_change_is_answered_as_its_act_is,
    answers_of_the_model_are_undisturbed,
};
use tfs_connections::{Load, Setting};
use tfs_conversation::Desk;
use tfs_records::Sink;
use tfs_rules::Name;
use tfs_shared::{Naming, Session, Shared};
use tfs_state::Doc;

/// The largest state, in bytes, that is read without waiting. Longer states are read one after
/// another, since reading some of them takes many times their length in memory.
pub const MAX_BYTES_AT_ONCE: usize = 4_194_304;

/// What sessions of a shared table are served with: the handle for waiting, the allocator, the
/// table, a lock for large pushes, the two flags, and the load of the workers. A push of more than
/// 4 MiB is read while the lock `turn` is held; it is released before the table's lock is taken.
/// Once `ended` is set, conversations are to end between two requests; once `muted` is set, nothing
/// more is written to any client.
#[derive(Drop)]
pub struct Service<'s, J: Naming, K: Sink, R: Wait> {
    pub rt: &'s R,
    pub alloc: Global,
    pub shared: &'s Shared<J, K>,
    pub turn: &'s Mutex<()>,
    pub ended: &'s AtomicBool,
    pub muted: &'s AtomicBool,
    pub load: &'s Load,
}

impl<'s, J: Naming, K: Sink, R: Wait> Service<'s, J, K, R> {
    /// Returns the setting of its conversations.
    pub(crate) fn setting(&self) -> Setting<'s, R> {
        Setting {
            rt: self.rt,
            alloc: self.alloc,
            ended: self.ended,
            muted: self.muted,
            load: self.load,
        }
    }
}

/// A desk that answers from a shared table through a borrowed session. Changes wait for the table's
/// lock, and so do reads if no snapshot has the state; impact queries never wait.
#[derive(Drop)]
pub struct SessionDesk<'v, 's, 'm, J: Naming, K: Sink, R: Wait> {
    pub service: &'v Service<'s, J, K, R>,
    pub session: &'m mut Session<J>,
}

impl<'v, 's, 'm, J: Naming, K: Sink, R: Wait> Desk for SessionDesk<'v, 's, 'm, J, K, R> {
    ghost use Rattle.std.specs.Prelude.{◌≡◌};
    ghost use Rattle.tfs_serve.specs.Session.{SessionStep};

    // The session stays the borrowed one, and answers.
    ghost step = { λ old call reply new. (new.session.ghost_name ≡ old.session.ghost_name)
        × SessionStep J.opening old.session.now call reply new.session.now };

    fn answer(&mut self, call: Call) -> Reply {
        let mut scratch = Scratch::new(self.service.alloc);
        reply_to(self.service, self.session, &mut scratch, call, u64::MAX)
    }
}

/// Answers a call. A state of at most 1 MiB is read with the memory of `scratch`. Reads and queries
/// prefer a journal of which at most `synced` bytes have to be durable.
pub(crate) fn reply_to<J: Naming, K: Sink, R: Wait>(
    service: &Service<'_, J, K, R>,
    session: &mut Session<J>,
    scratch: &mut Scratch,
    call: Call,
    synced: u64,
) -> Reply
    requires { CarriesFittingState call }
    ensures { SessionStep J.opening session.old call (reply_value result) session.new }
{
    match call {
        Call::Read(name) => read(service, session, &name, synced),
        Call::Change(name, raw) => change(service, session, name, raw, scratch),
        Call::Impact(name, query) => ask(service.shared, session, &name, &query, synced),
    }
}

/// Replies with the state of a name.
fn read<J: Naming, K: Sink, R: Wait>(
    service: &Service<'_, J, K, R>,
    session: &mut Session<J>,
    name: &Name,
    synced: u64,
) -> Reply
    ensures { SessionStep J.opening session.old (CallRead name.now) (reply_value result) session.new }
{
    match state_of(service, session, name, synced) {
        Ok(doc) => Reply::State(doc),
        Err(refusal) => Reply::Refused(refusal),
    }
}

/// Returns the state of a name from a snapshot or, if no snapshot gives an answer, under the lock.
fn state_of<J: Naming, K: Sink, R: Wait>(
    service: &Service<'_, J, K, R>,
    session: &mut Session<J>,
    name: &Name,
    synced: u64,
) -> Result<Arc<Doc>, Refusal>
    ensures answered { MatchResult result
        (λ doc. AnswersRead name.now session.old session.new (state (arc_value doc)))
        (λ refusal. HasNoCopy J.opening session.old session.new (refused (refusal_value refusal))
        ⊎ AnswersRead name.now session.old session.new (refused (refusal_value refusal))) }
    ensures signed { IsSigned J.opening session.old session.new [] }
    ensures counted { CountsNothing session.old session.new }
{
    match session.published_state_within(name, synced) {
        Some(Ok(doc)) => Ok(doc),
        Some(Err(refusal)) => Err(refusal),
        None => session.state(service.rt, service.shared, name),
    }
}

/// Replies to an impact query for a name.
fn ask<J: Naming, K: Sink>(
    shared: &Shared<J, K>,
    session: &mut Session<J>,
    name: &Name,
    query: &Query,
    synced: u64,
) -> Reply
    ensures { SessionStep J.opening session.old (Impact name.now query.now) (reply_value result) session.new }
{
    // No answer of the model is `OutOfMemory`.
    answers_of_the_model_are_undisturbed();
    match session.impact_within(shared, name, query, synced) {
        Ok(answer) => Reply::Impact(answer),
        Err(refusal) => Reply::Refused(refusal),
    }
}

/// Changes the workspace of a name. A state of at most 1 MiB is read with the memory of `scratch`.
fn change<J: Naming, K: Sink, R: Wait>(
    service: &Service<'_, J, K, R>,
    session: &mut Session<J>,
    name: Name,
    raw: Raw,
    scratch: &mut Scratch,
) -> Reply
    requires { HasFittingState raw }
    ensures { SessionStep J.opening session.old (Change name raw) (reply_value result) session.new }
{
    a_change_is_answered_as_its_act_is();
    // What the session has seen is lawful: a change that can't be read is refused over that
    // journal.
    session.is_kept();
    let draft = match read_in_turn(service, raw, scratch) {
        Ok(draft) => draft,
        Err(refusal) => return Reply::Refused(refusal),
    };
    match session.submit(service.rt, service.shared, name, draft) {
        Ok(position) => Reply::Done(position),
        Err(refusal) => Reply::Refused(refusal),
    }
}

/// Reads the bodies of a change. Waits for the lock `turn` if the state is long.
fn read_in_turn<J: Naming, K: Sink, R: Wait>(
    service: &Service<'_, J, K, R>,
    raw: Raw,
    scratch: &mut Scratch,
) -> Result<Draft, Refusal>
    requires { HasFittingState raw }
    ensures ok { IfOk result (λ draft. act_of raw ≡ Some draft) }
    ensures err { IfErr result (λ refusal. (refusal_value refusal ≡ out_of_memory)
        ⊎ ((refusal_value refusal ≡ draft_refusal raw) × (act_of raw ≡ None))) }
    ensures memory { TakesNoMemory raw → IfErr result (λ refusal. refusal_value refusal ≢ out_of_memory) }
{
    if !is_long(&raw) {
        return Draft::read_over(service.alloc, raw, scratch);
    }
    let guard = service.turn.lock(service.rt);
    let draft = Draft::read_over(service.alloc, raw, scratch);
    MutexGuard::unlock(guard);
    draft
}

/// Returns true if the change has a state of more than 4 MiB.
fn is_long(raw: &Raw) -> bool {
    match raw {
        Raw::Push(_, body) => body.as_slice().len() > MAX_BYTES_AT_ONCE,
        Raw::Lock(_) | Raw::Unlock(_, _) | Raw::Delete(_) => false,
    }
}
