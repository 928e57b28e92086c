//! The pieces of a state.

ghost use Rattle.std.specs.Prelude.{◌≡◌, ◌↔◌, length, IsTrue, IfOk, IfErr, OnOk};
ghost use Rattle.tfs_store.specs.Pieces.{AreInOrder, bytes_in, IsCause};

use std::alloc::{AllocError, Global};
use std::marker::Model;
use thiserror::Error;

/// The maximum number of bytes of a piece.
pub const PIECE_BYTES: usize = 65_536;

/// A piece that was read: its sequence number, counted from 0, and its bytes.
#[derive(Debug, Drop)]
pub struct Piece {
    pub sequence: u64,
    pub bytes: Vec<u8>,
}

impl Model for Piece {
    ghost use Rattle.tfs_store.specs.Pieces.{PieceValue};

    ghost Value = { PieceValue };

    ghost view = { λ p. record { sequence = p.sequence; bytes = p.bytes.items } };
}

/// Why the pieces of a state do not make it.
#[derive(Clone, Copy, Debug, PartialEq, Eq, Error)]
pub enum PieceFault {
    /// The sequence numbers are not 0, 1, 2 and so on.
    #[error("a piece of the state is missing between two others")]
    Gap,
    /// The pieces have fewer bytes than the state.
    #[error("the last piece of the state is missing")]
    Short,
    /// The pieces have more bytes than the state.
    #[error("the pieces are longer than the state")]
    Long,
    #[error("out of memory")]
    NoMemory,
}

/// Joins the pieces of a state with a number of bytes. Returns its bytes exactly if the pieces are in
/// order, without a gap, and have that number of bytes together.
pub fn join_pieces(alloc: Global, count: u64, pieces: &[Piece]) -> Result<Vec<u8>, PieceFault>
    ensures order { OnOk result (AreInOrder pieces.now) }
    ensures count { IfOk result (λ state. length state.items ≡ count) }
    ensures value { IfOk result (λ state. state.items ≡ bytes_in pieces.now) }
    ensures err { IfErr result (λ fault. IsCause count pieces.now fault) }
{
    if !are_in_order(pieces) {
        return Err(PieceFault::Gap);
    }
    let Ok(state) = joined(alloc, pieces) else {
        return Err(PieceFault::NoMemory);
    };
    let found = state.len() as u64;
    if found < count {
        Err(PieceFault::Short)
    } else if found > count {
        Err(PieceFault::Long)
    } else {
        Ok(state)
    }
}

/// Returns true if the sequence numbers of pieces are 0, 1, 2 and so on.
fn are_in_order(pieces: &[Piece]) -> bool
    ensures value { IsTrue result ↔ AreInOrder pieces.now }
{
    let mut next = 0;
    for piece in pieces {
        if piece.sequence != next {
            return false;
        }
        next += 1;
    }
    true
}

/// Returns the bytes of pieces, one after another.
fn joined(alloc: Global, pieces: &[Piece]) -> Result<Vec<u8>, AllocError>
    ensures value { IfOk result (λ state. state.items ≡ bytes_in pieces.now) }
{
    let mut state = Vec::new(alloc);
    for piece in pieces {
        state.extend_from_slice(piece.bytes.as_slice())?;
    }
    Ok(state)
}
