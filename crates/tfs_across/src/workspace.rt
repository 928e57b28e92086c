//! Workspaces with a state.

ghost use Rattle.std.specs.Prelude.{◌≡◌};

use std::marker::Model;
use tfs_rules::Name;
use tfs_state::Doc;

/// A workspace: its name, and its newest state.
#[derive(Drop)]
pub struct Workspace<'w> {
    name: &'w Name,
    doc: &'w Doc,
}

impl<'w> Model for Workspace<'w> {
    ghost use Rattle.tfs_across.specs.Across.{WorkspaceValue};

    ghost Value = { WorkspaceValue };

    ghost view = { λ w. record { name = w.name.now; document = w.doc.now } };
}

impl<'w> Workspace<'w> {
    /// Creates the workspace of a name with its newest state.
    pub fn new(name: &'w Name, doc: &'w Doc) -> Workspace<'w>
        ensures value { result ≡ record { name = name.now; document = doc.now } }
    {
        Workspace { name, doc }
    }

    /// Returns the text of the name.
    pub fn name(&self) -> &'w str
        ensures value { result.now ≡ self.now.name }
    {
        self.name.text()
    }

    /// Returns the newest state.
    pub fn doc(&self) -> &'w Doc
        ensures value { result.now ≡ self.now.document }
    {
        self.doc
    }
}
