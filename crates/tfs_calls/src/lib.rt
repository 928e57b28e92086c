//! The calls of a table of workspaces and its replies: drafts of changes, queries, refusals, and
//! the transition from calls to replies.
#![tactic(auto)]

mod bytes;
mod call;
mod draft;
mod impact;
mod laws;
mod query;
mod refusal;
mod reply;
mod text;

pub use bytes::Bytes;
pub use call::{Call, Raw};
pub use draft::Draft;
pub use impact::{Chosen, Impact};
pub use laws::{a_change_is_answered_as_its_act_is, answers_of_the_model_are_undisturbed};
pub use query::{Kind, Query, Texts};
pub use refusal::{Methods, Refusal};
pub use reply::Reply;
pub use text::Text;
