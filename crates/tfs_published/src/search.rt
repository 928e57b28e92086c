//! Looking up a name among places.

ghost use Rattle.std.specs.Prelude.{◌≡◌, ◌<◌, length, map, position, IfSome};
ghost use Rattle.tfs_rules.specs.History.{state_of};
ghost use Rattle.tfs_records.specs.Journal.{Journal, acts_of};
ghost use Rattle.tfs_published.specs.Lookup.{IsLookup};
ghost use Rattle.tfs_published.specs.Place.{place_view, has_name};
ghost use Rattle.tfs_published.specs.Published.{ArePlacesOf};
ghost use Rattle.tfs_published.specs.Snapshot.{IsNumber};

use crate::lookup::Lookup;
use crate::place::{Place, is_of};

/// Returns the number of a name among places, if it has one, and what the places have of the name.
pub(crate) fn find(places: &[Place], name: &str) -> (Option<usize>, Lookup)
    ensures number { (j : Journal) → ArePlacesOf j (map place_view places.now) → IsNumber j name.now result.0 }
    ensures lookup { (j : Journal) → ArePlacesOf j (map place_view places.now) → IsLookup result.1 (state_of (acts_of name.now j)) }
    ensures bound { IfSome result.0 (λ number. number < length places.now) }
{
    match number_of(places, name) {
        Some(number) => (Some(number), at(&places[number])),
        None => (None, Lookup::NoState),
    }
}

/// Returns the number of the first place with this name.
fn number_of(places: &[Place], name: &str) -> Option<usize>
    ensures value { result
        ≡ position (λ place. has_name name.now (place_view place)) places.now }
    ensures bound { IfSome result (λ number. number < length places.now) }
{
    places.iter().position(|place| is_of(place, name))
}

/// Returns what a place has. The clone of its version may be refused.
fn at(place: &Place) -> Lookup
    ensures value { IfSome (place_view place.now) (λ view. IsLookup result view.state) }
{
    match place {
        Place::Kept(_, Some(version)) => match version.clone() {
            Ok(version) => Lookup::Kept(version),
            Err(_) => Lookup::Lost,
        },
        Place::Kept(_, None) | Place::Empty => Lookup::NoState,
        Place::Lost(lost) => lost.lookup(),
    }
}
