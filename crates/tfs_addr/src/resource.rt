//! The parts of an instance's address other than its names.

/// Whether Terraform manages a resource or only reads it.
#[derive(Clone, Copy, Debug, PartialEq, Eq)]
pub enum Mode {
    /// `managed` in a state.
    Managed,
    /// `data` in a state.
    DataSource,
}

/// The key that distinguishes an instance from the others of its configuration block.
#[derive(Clone, Copy, Debug)]
pub enum Key<'a> {
    /// An index of `count`.
    Number(u64),
    /// A key of `for_each`.
    Text(&'a str),
}
