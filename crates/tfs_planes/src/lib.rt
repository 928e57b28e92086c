//! Sets of numbers as rows of bits, relations as planes of bits, and the transitive closure of a
//! relation. Words are processed in lanes of eight.
#![tactic(auto)]

pub use kernels::{count_words, equal_words, meet_words, union_words};
pub use plane::Plane;
pub use row::Row;
pub use size::is_size;

mod bits;
mod cells;
mod closure;
mod kernels;
mod order;
mod placing;
mod plane;
mod row;
mod size;

/// The largest size of a row or a plane, fixed by the contract of `is_size`.
pub const MAX: usize = 4096;

/// The number of words in a row of the largest size.
const WORDS: usize = 64;
