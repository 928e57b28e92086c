//! What contracts see of published copies. No value of these types is made.

use crate::token::Token;
use tfs_state::Doc;

/// The contents of a place: a name, and the state of that name.
pub struct PlaceView {
    pub name: [u8; 0],
    pub state: Option<Doc>,
}

/// The contents of a copy. A clause reads an array as a list of any length.
pub struct CopyView {
    pub places: [Option<PlaceView>; 0],
    pub since: [Option<Token>; 0],
    pub token: Token,
}

/// The contents of an update: the number of a place, what is put there, and the token afterwards.
pub struct UpdateView {
    pub number: usize,
    pub place: PlaceView,
    pub token: Token,
}
