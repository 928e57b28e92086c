//! Lock information.

ghost use Rattle.std.specs.Prelude.{◌≡◌, ◌≢◌, ◌<◌, Some, Err, IfOk, IfErr, length};
ghost use Rattle.tfs_json.specs.Tree.{tree_view};
ghost use Rattle.tfs_lock.specs.LockText.{GivesId, SpellsId, SpellsLockInfo, first_lock_fault, first_text_fault, first_value_fault};
ghost use Rattle.tfs_lock.specs.declared.fault.LockFault.TheVariants.{NoMemory, TooLong};

use crate::fault::LockFault;
use crate::id::{Id, MAX_ID_BYTES};
use json::Scratch;
use std::alloc::Global;
use std::marker::Model;
use tfs_json::{JsonFault, Tree, is_object, read_kept, text_at};

/// The maximum number of bytes in a lock text: 64 KiB.
pub const MAX_LOCK_BYTES: usize = 65_536;

/// The information about a lock that its holder sent, with its unchanged text. Terraform writes the
/// members `ID`, `Operation`, `Info`, `Who`, `Version`, `Created` and `Path`; all except `ID` are
/// kept without being interpreted.
#[derive(Drop)]
pub struct LockInfo {
    bytes: Vec<u8>,
    id: Id,
}

impl Model for LockInfo {
    ghost use Rattle.tfs_lock.specs.LockInfo.{LockInformation};
    ghost use Rattle.tfs_lock.specs.LockText.{SpellsLockInfo};

    ghost Value = { LockInformation };

    ghost view = { λ info. record { bytes = info.bytes.items; id = info.id } };

    ghost invariant = { λ info. SpellsLockInfo info.bytes.items
        (record { bytes = info.bytes.items; id = info.id }) };
}

impl LockInfo {
    /// Reads a lock text.
    ///
    /// An error is the first fault of the text: more than 65,536 bytes, then the faults in the
    /// order of [`LockFault`]. The exception is `NoMemory`, which means that a request for memory
    /// was refused. No memory is requested for a text of more than 65,536 bytes.
    pub fn read(alloc: Global, bytes: Vec<u8>) -> Result<LockInfo, LockFault>
        ensures ok { IfOk result (SpellsLockInfo bytes.items) }
        ensures err { IfErr result (λ fault. fault ≢ NoMemory
            → first_lock_fault bytes.items ≡ Some fault) }
        ensures long { 65536 < length bytes.items → result ≡ Err TooLong }
    {
        if bytes.len() > MAX_LOCK_BYTES {
            return Err(LockFault::TooLong);
        }
        let id = read_text(alloc, bytes.as_slice())?;
        Ok(LockInfo { bytes, id })
    }

    /// Returns the text, byte for byte as it was read.
    pub fn bytes(&self) -> &[u8]
        ensures value { result.now ≡ self.now.bytes }
        ensures spelled { SpellsLockInfo self.now.bytes self.now }
    {
        self.bytes.as_slice()
    }

    /// Returns the identifier in the text, with its escapes decoded.
    pub fn id(&self) -> &Id
        ensures value { result.now ≡ self.now.id }
    {
        &self.id
    }
}

/// Reads the identifier in a text.
fn read_text(alloc: Global, bytes: &[u8]) -> Result<Id, LockFault>
    ensures ok { IfOk result (SpellsId bytes.now) }
    ensures err { IfErr result (λ fault. fault ≢ NoMemory
        → first_text_fault bytes.now ≡ Some fault) }
{
    let mut scratch = Scratch::new(alloc);
    match read_kept(alloc, bytes, &mut scratch) {
        Ok(value) => read_id(alloc, &value),
        Err(JsonFault::NotJson) => Err(LockFault::NotJson),
        Err(JsonFault::NoMemory) => Err(LockFault::NoMemory),
    }
}

/// Reads the identifier in a value.
fn read_id(alloc: Global, value: &Tree<'_>) -> Result<Id, LockFault>
    ensures ok { IfOk result (GivesId (tree_view value.now)) }
    ensures err { IfErr result (λ fault. fault ≢ NoMemory
        → first_value_fault (tree_view value.now) ≡ Some fault) }
{
    if !is_object(value) {
        return Err(LockFault::NotObject);
    }
    let text = text_at(value, "ID").unwrap_or("");
    if text.is_empty() {
        return Err(LockFault::NoId);
    }
    if text.len() > MAX_ID_BYTES {
        return Err(LockFault::TooLong);
    }
    Id::copy_of(alloc, text).map_err(|_| LockFault::NoMemory)
}
