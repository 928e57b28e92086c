//! A journal in a store that several servers share: its head, its rows, and how the head moves.
#![tactic(auto)]

mod head;
mod key;
mod laws;
mod number;
mod pieces;
mod place;
mod row;
mod rows;
mod store;
mod writer;

pub use head::Head;
pub use key::Key;
pub use number::read_number;
pub use pieces::{PIECE_BYTES, Piece, PieceFault, join_pieces};
pub use place::Place;
pub use row::Row;
pub use rows::{Pair, RowFault, read_rows};
pub use store::{Answer, Move, Patience, Store, StoreFault};
pub use writer::{MoveFault, Writer};
