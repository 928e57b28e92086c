//! The row of a workspace.

ghost use Rattle.std.specs.Prelude.{◌≡◌, string_bytes, IfOk, IfSome};
ghost use Rattle.tfs_store.specs.Texts.{state_text, row_text};

use crate::number::read_number_before;
use crate::place::Place;
use std::alloc::{AllocError, Global};
use std::marker::Model;
use tfs_rules::Name;

/// The row of a workspace: what the store has of the workspace of a name.
#[derive(Debug, Drop)]
pub struct Row {
    pub name: Name,
    /// The position of the journal after the last change of the workspace.
    pub position: u64,
    /// The text of the lock information, if the workspace is locked.
    pub holder: Option<String>,
    /// The place of the state's pieces, if the workspace has a state.
    pub state: Option<Place>,
}

impl Model for Row {
    ghost use Rattle.std.specs.Option.{option_map};
    ghost use Rattle.std.specs.Prelude.{string_bytes};
    ghost use Rattle.tfs_store.specs.Values.{RowValue};

    ghost Value = { RowValue };

    ghost view = { λ r. record {
      name = r.name;
      position = r.position;
      holder = option_map (λ text. string_bytes text) r.holder;
      state = r.state;
    } };
}

impl Row {
    /// Returns the value of the row in the store: `POSITION STATE HOLDER`. The state is `-` or the
    /// text of a place, the holder `free`, or `locked` and the lock information.
    pub fn text(&self, alloc: Global) -> Result<String, AllocError>
        ensures text { IfOk result (λ text. string_bytes text ≡ row_text self.now) }
    {
        let state = state_text(alloc, self.state)?;
        let (lock, info) = match &self.holder {
            Some(info) => ("locked ", info.as_str()),
            None => ("free", ""),
        };
        format!(in alloc; "{} {state} {lock}{info}", self.position)
    }

    /// Reads the value of the row of a name. Returns `None` for any other text.
    pub fn read(alloc: Global, name: Name, text: &str) -> Result<Option<Row>, AllocError>
        ensures read { IfOk result (λ found. IfSome found (λ row. text.now ≡ row_text row)) }
        ensures name { IfOk result (λ found. IfSome found (λ row. row.name ≡ name)) }
    {
        let Some((position, state, lock)) = parts(text) else {
            return Ok(None);
        };
        let holder = match lock.strip_prefix("locked ") {
            Some(info) => Some(String::from_str(alloc, info)?),
            None => None,
        };
        let row = Row {
            name,
            position,
            holder,
            state: Place::read(state),
        };
        if row.text(alloc)?.as_str() == text {
            Ok(Some(row))
        } else {
            Ok(None)
        }
    }
}

/// Returns the parts of a row's value: the position, the state and the holder.
fn parts(text: &str) -> Option<(u64, &str, &str)> {
    let (position, rest) = read_number_before(text, ' ')?;
    let (state, lock) = rest.split_once(' ')?;
    Some((position, state, lock))
}

/// Returns the text of a state's place: `-` if there is no state.
fn state_text(alloc: Global, state: Option<Place>) -> Result<String, AllocError>
    ensures text { IfOk result (λ text. string_bytes text ≡ state_text state) }
{
    match state {
        Some(place) => place.text(alloc),
        None => String::from_str(alloc, "-"),
    }
}
