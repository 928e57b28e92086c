//! Drafts: raw changes whose texts were read.

ghost use Rattle.std.specs.Prelude.{◌≡◌, ◌≢◌, ◌≤◌, ◌<◌, ◌⊎◌, length, true, false, Some, None, IfOk, IfErr, OnErr, option_map};
ghost use Rattle.std.specs.Arc.{arc_value};
ghost use Rattle.tfs_state.specs.StateText.{SpellsDocument, document_of, first_state_fault};
ghost use Rattle.tfs_state.specs.declared.fault.StateFault.TheVariants.{NoMemory};
ghost use Rattle.tfs_lock.specs.LockText.{lock_info_of};
ghost use Rattle.tfs_rules.specs.Act.{act_value, IsRead};
ghost use Rattle.tfs_calls.specs.Pushed.{pushed_by, IsPush};
ghost use Rattle.tfs_calls.specs.Draft.{act_of, draft_refusal, lock_refusal, state_refusal, lock_text_refusal};
ghost use Rattle.tfs_calls.specs.Draft.{state_text_refusal, id_given, is_too_long, HasFittingState, TakesNoMemory};
ghost use Rattle.tfs_calls.specs.Refusal.{refusal_value, bad_lock_info, out_of_memory};
ghost use Rattle.tfs_calls.specs.declared.call.Raw.TheVariants.{Lock, Unlock, Push, Delete};

use crate::bytes::Bytes;
use crate::call::Raw;
use crate::refusal::Refusal;
use crate::text::Text;
use json::Scratch;
use std::alloc::Global;
use std::marker::Model;
use std::sync::Arc;
use tfs_index::Version;
use tfs_lock::{Id, LockFault, LockInfo, bytes_spell_lock_info_or_have_a_fault};
use tfs_rules::Act;
use tfs_state::{Doc, StateFault, bytes_spell_a_document_or_have_a_fault};

/// The largest state that is read with a caller's scratch, in bytes. The owner may keep the
/// scratch's memory for ever, so a larger state gets memory of its own.
const MAX_LENT_BYTES: usize = 1_048_576;

/// An act that was read from a raw change and that no table has judged yet, with the version of the
/// document that it pushes. Its contents were read from their bytes.
#[derive(Drop)]
pub struct Draft {
    act: Act,
    version: Option<Arc<Version>>,
}

impl Model for Draft {
    ghost use Rattle.std.specs.Prelude.{◌≡◌, option_map};
    ghost use Rattle.std.specs.Arc.{arc_value};
    ghost use Rattle.tfs_rules.specs.Act.{ActValue, act_value, IsRead};
    ghost use Rattle.tfs_calls.specs.Pushed.{pushed_by};

    ghost Value = { ActValue };

    ghost view = { λ d. act_value d.act };

    ghost invariant = { λ d. IsRead (act_value d.act) × (option_map arc_value d.version ≡ pushed_by (act_value d.act)) };
}

impl Draft {
    /// Reads the texts of a raw change. Fails with `BadLockInfo`, `BadState` or `TooManyInstances`,
    /// the first that applies, or with `OutOfMemory` wherever memory is refused. A change that has
    /// no body, or is refused before its body is read, allocates nothing.
    pub fn read(alloc: Global, raw: Raw) -> Result<Draft, Refusal>
        requires { HasFittingState raw }
        ensures ok { IfOk result (λ draft. act_of raw ≡ Some draft) }
        ensures err { IfErr result (λ refusal. (refusal_value refusal ≡ out_of_memory)
            ⊎ ((refusal_value refusal ≡ draft_refusal raw) × (act_of raw ≡ None))) }
        ensures memory { TakesNoMemory raw → IfErr result (λ refusal. refusal_value refusal ≢ out_of_memory) }
    {
        Draft::read_over(alloc, raw, &mut Scratch::new(alloc))
    }

    /// Reads the texts of a raw change as [`Draft::read`] does. A state of at most 1 MiB is read
    /// with the memory of a scratch, which is kept between reads.
    pub fn read_over(alloc: Global, raw: Raw, scratch: &mut Scratch) -> Result<Draft, Refusal>
        requires { HasFittingState raw }
        ensures ok { IfOk result (λ draft. act_of raw ≡ Some draft) }
        ensures err { IfErr result (λ refusal. (refusal_value refusal ≡ out_of_memory)
            ⊎ ((refusal_value refusal ≡ draft_refusal raw) × (act_of raw ≡ None))) }
        ensures memory { TakesNoMemory raw → IfErr result (λ refusal. refusal_value refusal ≢ out_of_memory) }
    {
        let act = match raw {
            Raw::Lock(body) => read_lock(alloc, body)?,
            Raw::Unlock(body, text) => read_unlock(alloc, body, text)?,
            Raw::Push(text, body) => read_push(alloc, text, body, scratch)?,
            Raw::Delete(text) => read_delete(text)?,
        };
        act.is_read();
        let version = version_of(alloc, &act)?;
        Ok(Draft { act, version })
    }

    /// Returns a reference to the act.
    pub fn act(&self) -> &Act
        ensures value { act_value result.now ≡ self.now }
        ensures read { IsRead self.now }
    {
        &self.act
    }

    /// Turns the draft into its act.
    pub fn into_act(self) -> Act
        ensures value { act_value result ≡ self }
    {
        let Draft { act, version: _ } = self;
        act
    }

    /// Returns the act, and the version of the document that it pushes.
    pub fn into_parts(self) -> (Act, Option<Arc<Version>>)
        ensures act { act_value result.0 ≡ self }
        ensures version { option_map arc_value result.1 ≡ pushed_by self }
    {
        let Draft { act, version } = self;
        (act, version)
    }
}

/// Builds the version of the document that an act pushes. Only a push allocates.
fn version_of(alloc: Global, act: &Act) -> Result<Option<Arc<Version>>, Refusal>
    ensures ok { IfOk result (λ version. option_map arc_value version ≡ pushed_by (act_value act.now)) }
    ensures err { IfErr result (λ refusal. refusal_value refusal ≡ out_of_memory) }
    ensures memory { OnErr result (IsPush (act_value act.now)) }
{
    match act {
        Act::Push(_, doc) => {
            let version = Version::build(alloc, doc.clone()?)?;
            match Arc::new(alloc, version) {
                Ok(version) => Ok(Some(version)),
                Err(_) => Err(Refusal::OutOfMemory),
            }
        }
        Act::Lock(_) | Act::Unlock(_) | Act::Delete(_) => Ok(None),
    }
}

/// Reads a lock from the lock information in the body.
fn read_lock(alloc: Global, body: Bytes) -> Result<Act, Refusal>
    ensures ok { IfOk result (λ act. act_of (Lock body) ≡ Some (act_value act)) }
    ensures err { IfErr result (λ refusal. (refusal_value refusal ≡ out_of_memory)
        ⊎ ((refusal_value refusal ≡ draft_refusal (Lock body)) × (act_of (Lock body) ≡ None))) }
    ensures memory { TakesNoMemory (Lock body) → IfErr result (λ refusal. refusal_value refusal ≢ out_of_memory) }
{
    let info = read_info(alloc, body.into_vec())?;
    match Arc::new(alloc, info) {
        Ok(info) => Ok(Act::Lock(info)),
        Err(_) => Err(Refusal::OutOfMemory),
    }
}

/// Reads an unlock, with the identifier in the lock information of the body or, if the body is
/// empty, in the text.
fn read_unlock(alloc: Global, body: Bytes, text: Option<Text>) -> Result<Act, Refusal>
    ensures ok { IfOk result (λ act. act_of (Unlock body text) ≡ Some (act_value act)) }
    ensures err { IfErr result (λ refusal. (refusal_value refusal ≡ out_of_memory)
        ⊎ ((refusal_value refusal ≡ draft_refusal (Unlock body text)) × (act_of (Unlock body text) ≡ None))) }
    ensures memory { TakesNoMemory (Unlock body text) → IfErr result (λ refusal. refusal_value refusal ≢ out_of_memory) }
{
    if body.as_slice().is_empty() {
        return Ok(Act::Unlock(read_id(text)?));
    }
    let info = read_info(alloc, body.into_vec())?;
    match info.id().copy() {
        Ok(id) => Ok(Act::Unlock(Some(id))),
        Err(_) => Err(Refusal::OutOfMemory),
    }
}

/// Reads a push of the document in the body, with the identifier in the text.
fn read_push(
    alloc: Global,
    text: Option<Text>,
    body: Bytes,
    scratch: &mut Scratch,
) -> Result<Act, Refusal>
    requires { length body ≤ 16777216 }
    ensures ok { IfOk result (λ act. act_of (Push text body) ≡ Some (act_value act)) }
    ensures err { IfErr result (λ refusal. (refusal_value refusal ≡ out_of_memory)
        ⊎ ((refusal_value refusal ≡ draft_refusal (Push text body)) × (act_of (Push text body) ≡ None))) }
    ensures memory { TakesNoMemory (Push text body) → IfErr result (λ refusal. refusal_value refusal ≢ out_of_memory) }
{
    let id = read_id(text)?;
    let doc = read_doc(alloc, body.into_vec(), scratch)?;
    Ok(Act::Push(id, doc))
}

/// Reads a delete with the identifier in the text.
fn read_delete(text: Option<Text>) -> Result<Act, Refusal>
    ensures ok { IfOk result (λ act. act_of (Delete text) ≡ Some (act_value act)) }
    ensures err { IfErr result (λ refusal. (refusal_value refusal ≡ draft_refusal (Delete text))
        × (act_of (Delete text) ≡ None)) }
{
    Ok(Act::Delete(read_id(text)?))
}

/// Reads the identifier that a text gives, if it gives one.
fn read_id(text: Option<Text>) -> Result<Option<Id>, Refusal>
    ensures ok { IfOk result (λ id. (id ≡ id_given text) × (is_too_long text ≡ false)) }
    ensures err { IfErr result (λ refusal. (refusal_value refusal ≡ bad_lock_info) × (is_too_long text ≡ true)) }
{
    let Some(text) = text else {
        return Ok(None);
    };
    if text.as_str().is_empty() {
        return Ok(None);
    }
    match Id::read(text.into_string()) {
        Some(id) => Ok(Some(id)),
        None => Err(Refusal::BadLockInfo),
    }
}

/// Reads lock information.
fn read_info(alloc: Global, bytes: Vec<u8>) -> Result<LockInfo, Refusal>
    ensures ok { IfOk result (λ info. lock_info_of bytes.items ≡ Some info) }
    ensures err { IfErr result (λ refusal. (refusal_value refusal ≡ out_of_memory)
        ⊎ ((refusal_value refusal ≡ lock_text_refusal bytes.items) × (lock_info_of bytes.items ≡ None))) }
    ensures memory { 65536 < length bytes.items → IfErr result (λ refusal. refusal_value refusal ≢ out_of_memory) }
{
    bytes_spell_lock_info_or_have_a_fault();
    match LockInfo::read(alloc, bytes) {
        Ok(info) => Ok(info),
        Err(fault) => Err(refusal_of_lock_text(fault)),
    }
}

/// Returns the refusal for a fault of a lock text.
fn refusal_of_lock_text(fault: LockFault) -> Refusal
    ensures { refusal_value result ≡ lock_refusal fault }
{
    match fault {
        LockFault::NotJson | LockFault::NotObject | LockFault::NoId | LockFault::TooLong => {
            Refusal::BadLockInfo
        }
        LockFault::NoMemory => Refusal::OutOfMemory,
    }
}

/// Reads a document.
fn read_doc(alloc: Global, bytes: Vec<u8>, scratch: &mut Scratch) -> Result<Arc<Doc>, Refusal>
    requires { length bytes.items ≤ 16777216 }
    ensures ok { IfOk result (λ doc. document_of bytes.items ≡ Some (arc_value doc)) }
    ensures err { IfErr result (λ refusal. (refusal_value refusal ≡ out_of_memory)
        ⊎ ((refusal_value refusal ≡ state_text_refusal bytes.items) × (document_of bytes.items ≡ None))) }
{
    bytes_spell_a_document_or_have_a_fault();
    match read_state(alloc, bytes, scratch) {
        Ok(doc) => match Arc::new(alloc, doc) {
            Ok(doc) => Ok(doc),
            Err(_) => Err(Refusal::OutOfMemory),
        },
        Err(fault) => Err(refusal_of_state_text(fault)),
    }
}

/// Reads a state, with memory of its own if it has more than 1 MiB.
fn read_state(alloc: Global, bytes: Vec<u8>, scratch: &mut Scratch) -> Result<Doc, StateFault>
    requires { length bytes.items ≤ 16777216 }
    ensures ok { IfOk result (SpellsDocument bytes.items) }
    ensures err { IfErr result (λ fault. fault ≢ NoMemory → first_state_fault bytes.items ≡ Some fault) }
    ensures long { 1048576 < length bytes.items → scratch.new ≡ scratch.old }
{
    if bytes.len() > MAX_LENT_BYTES {
        return Doc::read(alloc, bytes);
    }
    Doc::read_over(alloc, bytes, scratch)
}

/// Returns the refusal for a fault of a state text.
fn refusal_of_state_text(fault: StateFault) -> Refusal
    ensures { refusal_value result ≡ state_refusal fault }
{
    match fault {
        StateFault::NotJson
        | StateFault::Version
        | StateFault::Serial
        | StateFault::Lineage
        | StateFault::Resource(_)
        | StateFault::Instance(_, _)
        | StateFault::Dependency(_, _, _) => Refusal::BadState,
        StateFault::TooManyInstances => Refusal::TooManyInstances,
        StateFault::NoMemory => Refusal::OutOfMemory,
    }
}
