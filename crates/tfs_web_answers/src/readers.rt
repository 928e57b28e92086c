//! Who reads: everyone, or a user with the rights of an access file.

ghost use Rattle.std.specs.Prelude.{◌↔◌, ◌≡◌, IfOk, IsTrue};
ghost use Rattle.tfs_web_answers.specs.Readers.{Reads, rights_of};

use std::alloc::{AllocError, Global};
use tfs_rules::Name;
use tfs_web::UserReader;

/// The reader of an answer.
#[derive(Drop)]
pub enum Reader<'a> {
    /// Anyone who may connect: all workspaces are shown.
    Everyone,
    /// A user of an access file.
    User(UserReader<'a>),
}

impl<'a> Reader<'a> {
    /// Returns true if the reader may read a workspace.
    pub fn may_read(&mut self, alloc: Global, name: &Name) -> Result<bool, AllocError>
        ensures value { IfOk result (λ may. IsTrue may ↔ Reads (rights_of self.old) name.now) }
        ensures rights { rights_of self.new ≡ rights_of self.old }
    {
        match self {
            Reader::Everyone => Ok(true),
            Reader::User(user) => user.may_read(alloc, name),
        }
    }
}
