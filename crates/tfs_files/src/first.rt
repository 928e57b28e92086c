//! The first journal of a new folder.

use crate::choosing::choose_first;
use crate::fault::CommandEnd;
use crate::folder::numbers_of;
use crate::next::{Next, make, mark_served};
use crate::start::refuse_second;

/// The number of a folder's first journal.
pub const FIRST_NUMBER: u64 = 1;

/// Makes the first journal, which is empty, in a locked folder that never had one. The journal is
/// durable on return.
pub fn make_first(rt: &HostRuntime, folder: &str) -> Result<(), CommandEnd> {
    let numbers = numbers_of(rt, folder)?;
    refuse_second(rt, folder, &numbers)?;
    let first = Next {
        number: FIRST_NUMBER,
        chosen: &choose_first(rt, "", 0)?,
        may_replace: false,
    };
    make(rt, folder, &first)?;
    mark_served(rt, folder)
}
