//! The past of a name in journals: its acts with their positions, its state at a position, and the
//! text that restores an older state.
#![tactic(auto)]

mod changed;
mod counts;
mod difference;
mod dot;
mod event;
mod holding;
mod instances;
mod laws;
mod number;
mod past;
mod place;
mod restore;
mod telling;
mod told;
mod whole;

pub use changed::last_change;
pub use counts::{Measures, measure};
pub use difference::{Change, ChangeKind, Difference, diff};
pub use dot::picture;
pub use event::{Deed, Event, Outline};
pub use holding::{created_at, words_of};
pub use laws::events_are_the_acts_of_a_name_in_order;
pub use past::state_at;
pub use restore::{RestoreFault, restore_text};
pub use told::{Told, read_acts};
pub use whole::whole_part;
