//! Maps each request to the state backend to a call, makes the replies (RFC 9112), and writes them.
//! A request reads, pushes or deletes a state, takes or releases its lock, or queries the impact of
//! changes.
#![tactic(auto)]

mod answer;
mod fault;
mod impact_body;
mod laws;
mod lent;
mod output;
mod pieces;
mod query;
mod reply;
mod routes;

pub use fault::ServeFault;
pub use impact_body::ImpactBody;
pub use laws::{
    each_status_has_its_phrase, pieces_of_an_answer_are_its_body,
    what_becomes_of_a_request_is_one_thing,
};
pub use lent::{LentFault, Outlet, Source, Watched};
pub use output::{JOINED_BYTES, PIECE_BYTES, write_in_pieces, write_joined, write_out};
pub use reply::{body_of, write_head, write_impact_head, write_reply};
pub use routes::{Routes, call_of};
pub use tfs_framing::{Form, Request, Take, take};
