//! The verdict of a workspace on an act.

/// Whether a workspace accepts an act, or the first reason for a refusal.
#[derive(Clone, Copy, Debug, PartialEq, Eq)]
pub enum Verdict {
    /// The act is accepted.
    Accept,
    /// The lock is held by someone else: the act carries neither its text nor its identifier.
    Locked,
    /// A push or a delete carries the identifier of a lock, and no lock is held.
    LockLost,
    /// The pushed state has a different lineage from the stored one.
    LineageDiffers,
    /// The pushed state has a lower serial than the stored one.
    SerialTooLow,
    /// The pushed state has the stored one's serial and a different text.
    SerialReused,
}
