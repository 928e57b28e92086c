//! The text that a call carries.

ghost use Rattle.std.specs.Prelude.{◌≡◌, string_bytes};

use std::marker::Model;

/// A text, made from a string and turned back into it without allocating. Contracts see its UTF-8
/// bytes.
#[derive(Drop)]
pub struct Text {
    text: String,
}

impl Model for Text {
    ghost use Rattle.std.specs.Prelude.{List, ℕ, string_bytes};

    ghost Value = { List ℕ };

    ghost view = { λ t. string_bytes t.text };
}

impl Text {
    pub fn new(text: String) -> Text
        ensures value { result ≡ string_bytes text }
    {
        Text { text }
    }

    pub fn as_str(&self) -> &str
        ensures value { result.now ≡ self.now }
    {
        self.text.as_str()
    }

    pub fn into_string(self) -> String
        ensures value { string_bytes result ≡ self }
    {
        self.text
    }
}
