//! Places that have lost their version.

use crate::lookup::Lookup;
use crate::place_name::PlaceName;
use crate::token::Token;
use std::marker::Model;

/// A name whose version was lost because its clone was refused. The last change of the token is a
/// change of this name, and has its state. Contracts see the name and that state.
#[derive(Drop)]
pub struct LostPlace {
    name: PlaceName,
    token: Token,
}

impl Model for LostPlace {
    ghost use Rattle.std.specs.Prelude.{IsSome};
    ghost use Rattle.tfs_published.specs.Change.{state_told};
    ghost use Rattle.tfs_published.specs.PlaceView.{place_with};
    ghost use Rattle.tfs_published.specs.declared.view.PlaceView.{PlaceView};

    ghost Value = { PlaceView };

    ghost view = { λ p. place_with p.name (state_told p.token.changes) };

    ghost invariant = { λ p. IsSome (state_told p.token.changes) };
}

impl LostPlace {
    ghost use Rattle.std.specs.Prelude.{◌≡◌, IsSome};
    ghost use Rattle.std.specs.Str.{bytes_eq};
    ghost use Rattle.tfs_published.specs.Change.{state_told};
    ghost use Rattle.tfs_published.specs.PlaceView.{place_with};
    ghost use Rattle.tfs_published.specs.declared.lookup.Lookup.TheVariants.{Lost};

    /// Returns the lost place of a name, given the token whose last change is a change of this
    /// name.
    pub fn new(name: &PlaceName, token: &Token) -> LostPlace
        requires state { IsSome (state_told token.now.changes) }
        ensures value { result ≡ place_with name.now (state_told token.now.changes) }
    {
        LostPlace {
            name: name.again(),
            token: token.again(),
        }
    }

    /// Returns true if its name is this text.
    pub fn is(&self, name: &str) -> bool
        ensures value { result ≡ bytes_eq self.now.name name.now }
    {
        self.name.is(name)
    }

    /// Returns what a lookup of its name finds: the name has a state, and its version is lost.
    pub fn lookup(&self) -> Lookup
        ensures value { result ≡ Lost }
        ensures state { IsSome self.now.state }
    {
        self.token.count();
        Lookup::Lost
    }
}
