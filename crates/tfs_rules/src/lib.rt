//! The rules of a workspace: the acts that it accepts after its history, and the resulting state
//! and lock holder. A history of acts that were read is accepted if and only if it keeps the
//! history laws, which refer to positions alone.
#![tactic(auto)]

mod act;
mod laws;
mod name;
mod record;
mod verdict;

pub use act::Act;
pub use laws::{
    histories_are_accepted_act_by_act, histories_are_accepted_where_they_keep_the_history_laws,
    locked_acts_have_a_holder, the_current_state_is_that_of_the_last_push,
    the_holder_is_that_of_the_last_lock,
};
pub use name::{MAX_NAME_BYTES, Name, is_name};
pub use record::Record;
pub use verdict::Verdict;
