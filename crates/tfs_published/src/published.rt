//! Published copies, and how they apply a change.

ghost use Rattle.std.specs.Prelude.{◌≡◌, ◌<◌, IfSome, IfNone, IfOk, None, length, map, replicate, vec_len};
ghost use Rattle.std.specs.List.{range_with_len};
ghost use Rattle.tfs_published.specs.Place.{place_view};
ghost use Rattle.tfs_published.specs.Published.{updated, place_given};
ghost use Rattle.tfs_published.specs.Snapshot.{IsSnapshot};

use crate::due::due;
use crate::operation::{Operation, Update};
use crate::place::{Place, first_place, place_for, version_of};
use crate::search::find;
use crate::snapshot::Snapshot;
use crate::token::Token;
use crate::view::CopyView;
use left_right::Absorb;
use std::alloc::{AllocError, Global};
use std::marker::Model;
use std::sync::Arc;
use tfs_index::Version;
use tfs_records::Sink;
use tfs_rules::Name;
use tfs_table::Table;

/// The number of places of a copy: the maximum number of names of a table.
const PLACES: usize = 1_024;

/// The snapshot that readers enter: 1,024 places, for each the token of its last change, and the
/// token of the changes that the copy has applied.
#[derive(Drop)]
pub struct Published {
    places: Vec<Place>,
    since: Vec<Option<Token>>,
    token: Token,
}

impl Model for Published {
    ghost use Rattle.std.specs.Prelude.{◌≡◌, map, vec_len};
    ghost use Rattle.tfs_published.specs.Place.{place_view};
    ghost use Rattle.tfs_published.specs.declared.view.CopyView.{CopyView};

    ghost Value = { CopyView };

    ghost view = { λ p. record { places = map place_view p.places.items; since = p.since.items; token = p.token } };

    ghost invariant = { λ p. (vec_len p.places ≡ 1024) × (vec_len p.since ≡ 1024) };
}

impl Absorb<Operation> for Published {
    type State = CopyView;

    ghost use Rattle.tfs_published.specs.Published.{absorbed};

    ghost state = { λ p. p };

    ghost applied = { absorbed };

    ghost never_fails = { Unit {0} };

    fn absorb_first(
        &mut self,
        operation: &Operation,
        _other: &Published,
    ) -> Result<(), AllocError> {
        match operation {
            Operation::Nothing => {}
            Operation::Take(update) => self.take(update),
        }
        Ok(())
    }
}

impl Published {
    /// Returns a copy that represents the journal of a table, with a token.
    pub(crate) fn of<K: Sink>(
        alloc: Global,
        table: &Table<K>,
        token: &Token,
    ) -> Result<Published, AllocError>
        ensures value { IfOk result (λ copy. copy ≡ record {
          places = map (place_given table.now.journal) (range_with_len 0 1024);
          since = replicate 1024 None;
          token = token.now;
        }) }
    {
        Ok(Published {
            places: places_of(alloc, table)?,
            since: no_since(alloc)?,
            token: token.again(),
        })
    }

    /// Applies an update.
    fn take(&mut self, update: &Update)
        ensures value { self.new ≡ updated self.old update.now }
    {
        self.places[update.number] = place_for(&update.name, &update.version, &update.token);
        self.since[update.number] = Some(update.token.again());
        self.token = update.token.again();
    }

    /// Returns one more reference to the version at the place of a number, if it has one and the
    /// clone isn't refused.
    pub(crate) fn version(&self, number: usize) -> Option<Arc<Version>>
        requires { number < 1024 }
    {
        version_of(&self.places[number])
    }

    /// Returns what a session that has seen the changes of a token reads of a name if this number
    /// of bytes is synced, or `None` if the copy lacks some of these changes.
    pub(crate) fn snapshot(&self, token: &Token, name: &Name, synced: u64) -> Option<Snapshot>
        requires book { token.now.book ≡ self.now.token.book }
        ensures value { IfSome result (λ snapshot. IsSnapshot self.now token.now name.now synced snapshot) }
        ensures none { IfNone result (length self.now.token.changes < length token.now.changes) }
    {
        if !self.token.begins_with(token) {
            return None;
        }
        let (number, lookup) = find(self.places.as_slice(), name.text());
        let token = due(&self.token, self.since.as_slice(), number, token, synced);
        Some(Snapshot { token, lookup })
    }
}

/// Returns the places that the journal of a table gives.
fn places_of<K: Sink>(alloc: Global, table: &Table<K>) -> Result<Vec<Place>, AllocError>
    ensures value { IfOk result (λ places. map place_view places.items ≡ map (place_given table.now.journal) (range_with_len 0 1024)) }
    ensures wide { IfOk result (λ places. vec_len places ≡ 1024) }
{
    let mut places = Vec::with_capacity(alloc, PLACES)?;
    for number in 0..PLACES {
        places.push(first_place(table, number)?)?;
    }
    Ok(places)
}

/// Returns the tokens of places that haven't changed since the opening journal.
fn no_since(alloc: Global) -> Result<Vec<Option<Token>>, AllocError>
    ensures value { IfOk result (λ since. since.items ≡ replicate 1024 None) }
    ensures wide { IfOk result (λ since. vec_len since ≡ 1024) }
{
    let mut since = Vec::with_capacity(alloc, PLACES)?;
    for _number in 0..PLACES {
        since.push(None)?;
    }
    Ok(since)
}
