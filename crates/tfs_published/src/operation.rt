//! The operations that published copies apply.

ghost use Rattle.std.specs.Prelude.{◌≡◌, ◌<◌, option_map};
ghost use Rattle.std.specs.Arc.{arc_value};
ghost use Rattle.tfs_published.specs.Change.{state_told};
ghost use Rattle.tfs_published.specs.PlaceView.{place_with};

use crate::place_name::PlaceName;
use crate::token::Token;
use std::marker::Model;
use std::sync::Arc;
use tfs_index::Version;
use tfs_rules::Name;

/// A change, as a published copy applies it.
#[derive(Drop)]
pub struct Update {
    pub(crate) number: usize,
    pub(crate) name: PlaceName,
    pub(crate) version: Option<Arc<Version>>,
    pub(crate) token: Token,
}

impl Model for Update {
    ghost use Rattle.std.specs.Prelude.{◌≡◌, ◌<◌, option_map};
    ghost use Rattle.std.specs.Arc.{arc_value};
    ghost use Rattle.tfs_published.specs.Change.{state_told};
    ghost use Rattle.tfs_published.specs.PlaceView.{place_with};
    ghost use Rattle.tfs_published.specs.declared.view.UpdateView.{UpdateView};

    ghost Value = { UpdateView };

    ghost view = { λ u. record { number = u.number; place = place_with u.name (option_map arc_value u.version); token = u.token } };

    ghost invariant = { λ u. (u.number < 1024) × (state_told u.token.changes ≡ option_map arc_value u.version) };
}

impl Update {
    /// Returns the update for a change at the place of a number: the name, the version that it has
    /// afterwards, and the token that includes the change.
    pub(crate) fn new(
        number: usize,
        name: &Name,
        version: Option<Arc<Version>>,
        token: &Token,
    ) -> Update
        requires number { number < 1024 }
        requires told { state_told token.now.changes ≡ option_map arc_value version }
        ensures value { result ≡ record {
          number = number;
          place = place_with name.now (option_map arc_value version);
          token = token.now;
        } }
    {
        Update {
            number,
            name: PlaceName::of(name),
            version,
            token: token.again(),
        }
    }
}

/// An operation on a published copy.
#[derive(Drop)]
pub enum Operation {
    /// Changes nothing. It only reserves room in the queue of operations.
    Nothing,
    /// Applies an update.
    Take(Update),
}
