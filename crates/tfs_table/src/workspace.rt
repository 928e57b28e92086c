//! The workspaces of a table.

use std::sync::Arc;
use tfs_index::Version;
use tfs_rules::{Name, Record};

/// A workspace: its name, the number of the name among the table's names in the order of their
/// first occurrence, its state and holder, and the version of its state.
#[derive(Drop)]
pub struct Workspace {
    pub name: Name,
    pub number: usize,
    pub standing: Record,
    pub version: Option<Arc<Version>>,
}
