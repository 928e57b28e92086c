//! What requests ask for.

ghost use Rattle.std.specs.Prelude.{◌≡◌, ◌<◌};
ghost use Rattle.tfs_metrics.specs.Answers.{number_of};
ghost use Rattle.tfs_metrics.specs.Kind.{kind_of};

use tfs_calls::{Call, Raw};

/// What an answered request asks for: a method of `/state/{name}`, or a query of `/impact/{name}`.
/// `Other` is for requests that were refused before they became calls.
#[derive(Clone, Copy, Debug, PartialEq, Eq)]
pub enum Kind {
    Get,
    Post,
    Delete,
    Lock,
    Unlock,
    Impact,
    Other,
}

impl Kind {
    /// The kinds of calls.
    pub const ALL: [Kind; 6] = [
        Kind::Get,
        Kind::Post,
        Kind::Delete,
        Kind::Lock,
        Kind::Unlock,
        Kind::Impact,
    ];

    /// Returns what a call asks for.
    pub fn of(call: &Call) -> Kind
        ensures kind { result ≡ kind_of call.now }
    {
        match call {
            Call::Read(_) => Kind::Get,
            Call::Change(_, Raw::Push(_, _)) => Kind::Post,
            Call::Change(_, Raw::Delete(_)) => Kind::Delete,
            Call::Change(_, Raw::Lock(_)) => Kind::Lock,
            Call::Change(_, Raw::Unlock(_, _)) => Kind::Unlock,
            Call::Impact(_, _) => Kind::Impact,
        }
    }

    /// Returns the kind's number in the list of all kinds, from 0; `Other` is the last.
    pub(crate) fn number(self) -> usize
        ensures number { result ≡ number_of self }
        ensures small { result < 7 }
    {
        match self {
            Kind::Get => 0,
            Kind::Post => 1,
            Kind::Delete => 2,
            Kind::Lock => 3,
            Kind::Unlock => 4,
            Kind::Impact => 5,
            Kind::Other => 6,
        }
    }

    /// Returns the method of such requests; empty for `Other`.
    pub fn method(self) -> &'static str {
        match self {
            Kind::Get | Kind::Impact => "GET",
            Kind::Post => "POST",
            Kind::Delete => "DELETE",
            Kind::Lock => "LOCK",
            Kind::Unlock => "UNLOCK",
            Kind::Other => "",
        }
    }

    /// Returns the first part of the path of such requests; empty for `Other`.
    pub fn route(self) -> &'static str {
        match self {
            Kind::Impact => "impact",
            Kind::Get | Kind::Post | Kind::Delete | Kind::Lock | Kind::Unlock => "state",
            Kind::Other => "",
        }
    }
}
