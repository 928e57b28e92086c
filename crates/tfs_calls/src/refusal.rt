//! The refusals of requests, in the order of their checks.

ghost use Rattle.std.specs.Prelude.{◌≡◌};
ghost use Rattle.tfs_calls.specs.declared.refusal.Refusal.TheVariants.{OutOfMemory};

use std::alloc::AllocError;
use std::fmt;
use std::fmt::{Debug, Formatter};
use std::sync::Arc;
use tfs_lock::LockInfo;
use thiserror::Error;

/// The methods that a route allows.
#[derive(Clone, Copy, Debug, PartialEq, Eq)]
pub enum Methods {
    /// The methods of `/state/{name}`.
    State,
    /// The methods of `/impact/{name}/any` and `/impact/{name}/all`.
    Impact,
}

/// Why a request is refused. If several refusals apply, the earlier variant is reported, with three
/// exceptions: `OutOfMemory` comes wherever memory is refused, `BodyTooLarge` and `BadChunk` of a
/// body in chunks come in the order of the bytes, and `NoCopy` comes before `JournalStopped`.
#[derive(Drop, Error)]
pub enum Refusal {
    #[error("the request head is too large")]
    HeadTooLarge,
    #[error("the request head is invalid")]
    BadHead,
    #[error("the request has no Host field, or several")]
    NoHost,
    #[error("Content-Length is invalid")]
    BadLength,
    #[error("the transfer coding is not supported")]
    TransferCoding,
    #[error("the body is too large")]
    BodyTooLarge,
    #[error("the chunked body is invalid")]
    BadChunk,
    #[error("no such path")]
    NoRoute,
    #[error("the path does not allow this method")]
    MethodNotAllowed(Methods),
    #[error("the workspace name is invalid")]
    BadName,
    #[error("the body does not match Content-MD5")]
    BadDigest,
    #[error("the lock information is invalid, or the identifier is too long")]
    BadLockInfo,
    #[error("the body is not a valid state")]
    BadState,
    #[error("the state has too many instances")]
    TooManyInstances,
    #[error("the journal has failed: no change is accepted")]
    JournalStopped,
    /// The workspace is locked, with this lock information.
    #[error("the workspace is locked")]
    Locked(Arc<LockInfo>),
    #[error("the request names a lock, and no lock is held")]
    LockLost,
    #[error("the stored state has another lineage")]
    LineageDiffers,
    #[error("the stored state has a higher serial")]
    SerialTooLow,
    #[error("the stored state has this serial and other content")]
    SerialReused,
    #[error("the workspace has no state")]
    NoState,
    #[error("the query has no address")]
    NoAddress,
    #[error("the query has more than 64 addresses")]
    TooManyAddresses,
    /// An address of the query, with this number from 0, names no instance.
    #[error("address {0} of the query names no instance")]
    UnknownAddress(usize),
    #[error("there are too many workspaces")]
    TableFull,
    #[error("the journal is full")]
    JournalFull,
    #[error("out of memory")]
    OutOfMemory,
    #[error("the journal could not be written")]
    JournalFault,
    #[error("the worker cannot read a recent snapshot")]
    NoCopy,
}

impl From<AllocError> for Refusal {
    ghost from_gives = { λ _ refusal. refusal ≡ OutOfMemory };

    fn from(_error: AllocError) -> Refusal {
        Refusal::OutOfMemory
    }
}

impl Refusal {
    ghost use Rattle.tfs_calls.specs.Refusal.{row_of, refusal_value};

    /// Returns the refusal's number in the list of all refusals.
    pub fn number(&self) -> u8
        ensures number { result ≡ (row_of (refusal_value self.now)).number }
    {
        self.row().0
    }

    /// Returns the refusal's name, as replies report it.
    pub fn name(&self) -> &'static str
        ensures name { result.now ≡ (row_of (refusal_value self.now)).name }
    {
        self.row().1
    }

    /// Returns the HTTP status of a reply with this refusal (RFC 9110, section 15; RFC 6585,
    /// section 5; RFC 4918, section 11).
    pub fn status(&self) -> u16
        ensures status { result ≡ (row_of (refusal_value self.now)).status }
    {
        self.row().2
    }

    /// Returns the refusal's row in the table of refusals: number, name and status.
    fn row(&self) -> (u8, &'static str, u16)
        ensures number { result.0 ≡ (row_of (refusal_value self.now)).number }
        ensures name { result.1.now ≡ (row_of (refusal_value self.now)).name }
        ensures status { result.2 ≡ (row_of (refusal_value self.now)).status }
    {
        match self {
            Refusal::HeadTooLarge => (1, "HeadTooLarge", 431),
            Refusal::BadHead => (2, "BadHead", 400),
            Refusal::NoHost => (3, "NoHost", 400),
            Refusal::BadLength => (4, "BadLength", 400),
            Refusal::TransferCoding => (5, "TransferCoding", 501),
            Refusal::BodyTooLarge => (6, "BodyTooLarge", 413),
            Refusal::BadChunk => (28, "BadChunk", 400),
            Refusal::NoRoute => (7, "NoRoute", 404),
            Refusal::MethodNotAllowed(_) => (8, "MethodNotAllowed", 405),
            Refusal::BadName => (9, "BadName", 400),
            Refusal::BadDigest => (10, "BadDigest", 400),
            Refusal::BadLockInfo => (11, "BadLockInfo", 400),
            Refusal::BadState => (12, "BadState", 400),
            Refusal::TooManyInstances => (13, "TooManyInstances", 413),
            Refusal::JournalStopped => (14, "JournalStopped", 503),
            Refusal::Locked(_) => (15, "Locked", 423),
            Refusal::LockLost => (16, "LockLost", 409),
            Refusal::LineageDiffers => (17, "LineageDiffers", 409),
            Refusal::SerialTooLow => (18, "SerialTooLow", 409),
            Refusal::SerialReused => (19, "SerialReused", 409),
            Refusal::NoState => (20, "NoState", 404),
            Refusal::NoAddress => (21, "NoAddress", 400),
            Refusal::TooManyAddresses => (22, "TooManyAddresses", 400),
            Refusal::UnknownAddress(_) => (23, "UnknownAddress", 404),
            Refusal::TableFull => (24, "TableFull", 507),
            Refusal::JournalFull => (25, "JournalFull", 507),
            Refusal::OutOfMemory => (26, "OutOfMemory", 503),
            Refusal::JournalFault => (27, "JournalFault", 500),
            Refusal::NoCopy => (29, "NoCopy", 503),
        }
    }
}

impl Debug for Refusal {
    fn fmt<W: fmt::Write>(&self, f: &mut Formatter<W>) -> fmt::Result {
        f.write_str(self.name())
    }
}
