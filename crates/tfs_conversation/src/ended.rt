//! How conversations end.

/// How a conversation ended, if no error broke it off.
#[derive(Clone, Copy, Debug, PartialEq, Eq)]
pub enum Ended {
    /// The input ended between messages.
    Clean,
    /// The input ended inside a message.
    Cut,
    /// A request asked to close.
    Asked,
    /// A message whose end isn't known was refused.
    Refused,
}
