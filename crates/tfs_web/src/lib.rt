//! Requests and replies of the web page: which path shows what, what an access file lets a user
//! read, and the head of each reply.
#![tactic(auto)]

mod access;
mod asked;
mod pattern;
mod refusal;
mod replies;
mod routes;

pub use access::{Access, AccessFault, UserReader, is_user};
pub use asked::{Asked, Question, asked_of};
pub use refusal::WebRefusal;
pub use replies::{Content, refuse, reply};
pub use routes::{PageFile, WebRoute, WorkspaceView, route_of};
