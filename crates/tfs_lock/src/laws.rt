//! Laws of lock texts. They hold for any reader.

ghost use Rattle.std.specs.Prelude.{◌≡◌, ◌≢◌, ℕ, List, Some, None};
ghost use Rattle.tfs_lock.specs.LockInfo.{LockInformation};
ghost use Rattle.tfs_lock.specs.LockText.{SpellsLockInfo, first_lock_fault, lock_info_of};
ghost use Rattle.tfs_lock.specs.declared.fault.LockFault.{LockFault};
ghost use Rattle.tfs_lock.specs.declared.fault.LockFault.TheVariants.{NoMemory};

/// States that bytes either are the text of exactly one piece of lock information or have a first
/// fault, never both, and that `NoMemory` isn't the first fault of any text.
pub fn bytes_spell_lock_info_or_have_a_fault()
    ensures spelled { (bytes : List ℕ) (info : LockInformation) → SpellsLockInfo bytes info
        → first_lock_fault bytes ≡ None }
    ensures faultless { (bytes : List ℕ) → first_lock_fault bytes ≡ None
        → (info : LockInformation) × SpellsLockInfo bytes info }
    ensures once { (bytes : List ℕ) (a b : LockInformation) → SpellsLockInfo bytes a
        → SpellsLockInfo bytes b → a ≡ b }
    ensures given { (bytes : List ℕ) (info : LockInformation) → lock_info_of bytes ≡ Some info
        → SpellsLockInfo bytes info }
    ensures computed { (bytes : List ℕ) (info : LockInformation) → SpellsLockInfo bytes info
        → lock_info_of bytes ≡ Some info }
    ensures none_else { (bytes : List ℕ) (fault : LockFault) → first_lock_fault bytes ≡ Some fault
        → lock_info_of bytes ≡ None }
    ensures memory { (bytes : List ℕ) → first_lock_fault bytes ≢ Some NoMemory }
{}
