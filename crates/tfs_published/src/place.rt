//! The places of a published copy.

ghost use Rattle.std.specs.Prelude.{◌≡◌, Some, IfSome, IfOk, option_map};
ghost use Rattle.std.specs.Arc.{arc_value};
ghost use Rattle.tfs_published.specs.Change.{state_told};
ghost use Rattle.tfs_published.specs.Place.{place_view, has_name};
ghost use Rattle.tfs_published.specs.PlaceView.{place_with};
ghost use Rattle.tfs_published.specs.Published.{place_given};

use crate::lost::LostPlace;
use crate::place_name::PlaceName;
use crate::token::Token;
use std::alloc::AllocError;
use std::sync::Arc;
use tfs_index::Version;
use tfs_records::Sink;
use tfs_table::Table;

/// A place of a published copy.
#[derive(Drop)]
pub enum Place {
    /// The place is empty.
    Empty,
    /// The place has a name and, if the name has a state, its version.
    Kept(PlaceName, Option<Arc<Version>>),
    /// The place has a name with a state, and the clone of its version was refused.
    Lost(LostPlace),
}

/// Returns the place of a name with its version. The version is lost if its clone is refused.
pub(crate) fn place_for(name: &PlaceName, version: &Option<Arc<Version>>, token: &Token) -> Place
    requires told { state_told token.now.changes ≡ option_map arc_value version.now }
    ensures value { place_view result
        ≡ Some (place_with name.now (option_map arc_value version.now)) }
{
    match version {
        Some(version) => match version.clone() {
            Ok(version) => Place::Kept(name.again(), Some(version)),
            Err(_) => Place::Lost(LostPlace::new(name, token)),
        },
        None => Place::Kept(name.again(), None),
    }
}

/// Returns true if the place has this name.
pub(crate) fn is_of(place: &Place, name: &str) -> bool
    ensures { result ≡ has_name name.now (place_view place.now) }
{
    match place {
        Place::Empty => false,
        Place::Kept(own, _) => own.is(name),
        Place::Lost(lost) => lost.is(name),
    }
}

/// Returns one more reference to the version of a place, if it has one and the clone isn't refused.
pub(crate) fn version_of(place: &Place) -> Option<Arc<Version>>
    ensures value { IfSome result (λ version. IfSome (place_view place.now) (λ view. view.state ≡ Some (arc_value version))) }
{
    match place {
        Place::Kept(_, Some(version)) => version.clone().ok(),
        Place::Kept(_, None) | Place::Empty | Place::Lost(_) => None,
    }
}

/// Returns the place that a table's journal gives a number.
pub(crate) fn first_place<K: Sink>(table: &Table<K>, number: usize) -> Result<Place, AllocError>
    ensures value { IfOk result (λ place. place_view place ≡ place_given table.now.journal number) }
{
    let Some(name) = table.name(number) else {
        return Ok(Place::Empty);
    };
    let version = match table.version(name) {
        Some(version) => Some(version.clone()?),
        None => None,
    };
    Ok(Place::Kept(PlaceName::of(name), version))
}
