//! Queries for the impact of changes.

ghost use Rattle.std.specs.Prelude.{◌≡◌};

use crate::text::Text;
use std::marker::Model;

/// What a query chooses.
#[derive(Clone, Copy, Debug, PartialEq, Eq)]
pub enum Kind {
    /// The instances that at least one named instance reaches.
    Any,
    /// The instances that, for each text, an instance named by that text reaches.
    All,
}

/// Texts in order, made from a vector and turned back into it without allocating. Contracts see
/// their list.
#[derive(Drop)]
pub struct Texts {
    texts: Vec<Text>,
}

impl Model for Texts {
    ghost use Rattle.std.specs.Prelude.{List, ℕ};

    ghost Value = { List (List ℕ) };

    ghost view = { λ t. t.texts.items };
}

impl Texts {
    pub fn new(texts: Vec<Text>) -> Texts
        ensures value { result ≡ texts.items }
    {
        Texts { texts }
    }

    pub fn as_slice(&self) -> &[Text]
        ensures value { result.now ≡ self.now }
    {
        self.texts.as_slice()
    }

    pub fn into_vec(self) -> Vec<Text>
        ensures value { result.items ≡ self }
    {
        self.texts
    }
}

/// A query for the impact of changes: texts that name instances, and what is chosen by them.
#[derive(Drop)]
pub struct Query {
    pub kind: Kind,
    pub texts: Texts,
}
