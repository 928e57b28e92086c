//! The keys of the store.

ghost use Rattle.std.specs.Prelude.{◌≡◌, string_bytes, IfOk, IfSome};
ghost use Rattle.tfs_store.specs.Texts.{key_text};

use crate::number::read_number_before;
use std::alloc::{AllocError, Global};
use tfs_rules::Name;

/// A key of the store. Its text begins with the prefix that the servers of one journal share.
#[derive(Debug, Drop)]
pub enum Key {
    /// The head of the journal.
    Head,
    /// The server that leads.
    Leader,
    /// The row of a workspace.
    Row(Name),
    /// A piece of the state of a workspace. Only the server with the token writes it.
    Piece {
        name: Name,
        position: u64,
        token: u64,
        sequence: u64,
    },
}

impl Key {
    /// Returns the text of the key: `PREFIX/head`, `PREFIX/leader`, `PREFIX/r/NAME` or
    /// `PREFIX/s/NAME/POSITION-TOKEN/SEQUENCE`, with at least six digits in the sequence number.
    pub fn text(&self, alloc: Global, prefix: &str) -> Result<String, AllocError>
        ensures text { IfOk result (λ text. string_bytes text ≡ key_text prefix.now self.now) }
    {
        match self {
            Key::Head => format!(in alloc; "{prefix}/head"),
            Key::Leader => format!(in alloc; "{prefix}/leader"),
            Key::Row(name) => format!(in alloc; "{prefix}/r/{}", name.text()),
            Key::Piece {
                name,
                position,
                token,
                sequence,
            } => format!(in alloc;
                "{prefix}/s/{}/{position}-{token}/{sequence:06}",
                name.text()
            ),
        }
    }

    /// Reads the text of a key. Returns `None` for any other text.
    pub fn read(alloc: Global, prefix: &str, text: &str) -> Result<Option<Key>, AllocError>
        ensures read { IfOk result (λ found. IfSome found (λ key. text.now ≡ key_text prefix.now key)) }
    {
        let Some(key) = guess(alloc, prefix, text)? else {
            return Ok(None);
        };
        if key.text(alloc, prefix)?.as_str() == text {
            Ok(Some(key))
        } else {
            Ok(None)
        }
    }
}

/// Returns the key that a text may have.
fn guess(alloc: Global, prefix: &str, text: &str) -> Result<Option<Key>, AllocError> {
    let Some(rest) = text.strip_prefix(prefix) else {
        return Ok(None);
    };
    if rest == "/head" {
        return Ok(Some(Key::Head));
    }
    if rest == "/leader" {
        return Ok(Some(Key::Leader));
    }
    match rest.strip_prefix("/r/") {
        Some(name) => guess_row(alloc, name),
        None => guess_piece(alloc, rest),
    }
}

fn guess_row(alloc: Global, name: &str) -> Result<Option<Key>, AllocError> {
    match Name::read(String::from_str(alloc, name)?) {
        Some(name) => Ok(Some(Key::Row(name))),
        None => Ok(None),
    }
}

fn guess_piece(alloc: Global, rest: &str) -> Result<Option<Key>, AllocError> {
    let Some((name, position, token, sequence)) = parts(rest) else {
        return Ok(None);
    };
    let Some(name) = Name::read(String::from_str(alloc, name)?) else {
        return Ok(None);
    };
    Ok(Some(Key::Piece {
        name,
        position,
        token,
        sequence,
    }))
}

/// Returns the parts of a piece's key after the prefix.
fn parts(rest: &str) -> Option<(&str, u64, u64, u64)> {
    let (name, rest) = rest.strip_prefix("/s/")?.split_once('/')?;
    let (position, rest) = read_number_before(rest, '-')?;
    let (token, sequence) = read_number_before(rest, '/')?;
    match sequence.parse::<u64>() {
        Ok(sequence) => Some((name, position, token, sequence)),
        Err(_) => None,
    }
}
