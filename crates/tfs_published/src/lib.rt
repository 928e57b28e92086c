//! Published copies of a table, the snapshots that readers enter without a lock, and the one
//! history whose tokens the copies have.
#![tactic(auto)]

mod change;
mod due;
mod history;
mod laws;
mod lookup;
mod lost;
mod naming;
mod operation;
mod place;
mod place_name;
mod point;
mod published;
mod publisher;
mod reader;
mod replaced;
mod rule;
mod search;
mod snapshot;
mod token;
mod view;

pub use change::Change;
pub use history::Opened;
pub use laws::a_view_is_one_journal;
pub use lookup::Lookup;
pub use naming::Naming;
pub use point::Point;
pub use publisher::Publisher;
pub use reader::Reader;
