//! Why a request gets no answer.

ghost use Rattle.std.specs.Prelude.{◌≡◌};
ghost use Rattle.tfs_web.specs.Refusal.{body_of};

/// Why a request gets no answer.
#[derive(Clone, Copy, Debug, PartialEq, Eq)]
pub enum WebRefusal {
    /// The method is neither GET nor HEAD.
    MethodNotAllowed,
    /// The request is for a host that isn't this machine.
    OtherHost,
    /// Nothing has this path.
    NoRoute,
    /// Users have different rights, and the request has no valid user name.
    NoUser,
    /// The access file can't be read, or has a line that isn't understood.
    NoAccessFile,
    /// A parameter is missing or invalid.
    BadQuery,
    /// The user may not read the workspace, or no journal has it.
    NoName,
    /// The workspace has no state there.
    NoState,
    /// No journal has the position.
    NoPosition,
    /// The state has no instance of the address.
    UnknownAddress,
    /// The folder can't be read, now or at all.
    Unreadable,
}

impl WebRefusal {
    /// Returns the body of the reply: JSON with the name of the refusal.
    pub fn body(self) -> &'static str
        ensures value { result.now ≡ body_of self }
    {
        match self {
            WebRefusal::MethodNotAllowed => "{\"error\":\"MethodNotAllowed\"}",
            WebRefusal::OtherHost => "{\"error\":\"OtherHost\"}",
            WebRefusal::NoRoute => "{\"error\":\"NoRoute\"}",
            WebRefusal::NoUser => "{\"error\":\"NoUser\"}",
            WebRefusal::NoAccessFile => "{\"error\":\"NoAccessFile\"}",
            WebRefusal::BadQuery => "{\"error\":\"BadQuery\"}",
            WebRefusal::NoName => "{\"error\":\"NoName\"}",
            WebRefusal::NoState => "{\"error\":\"NoState\"}",
            WebRefusal::NoPosition => "{\"error\":\"NoPosition\"}",
            WebRefusal::UnknownAddress => "{\"error\":\"UnknownAddress\"}",
            WebRefusal::Unreadable => "{\"error\":\"Unreadable\"}",
        }
    }
}
