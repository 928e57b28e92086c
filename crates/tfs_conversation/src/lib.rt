//! Conversations over a connection: requests in, replies out, and desks that answer the calls, such
//! as one over a table. Also the work of the commands that read a journal.
#![tactic(auto)]

mod buffer;
mod check;
mod conversation;
mod desk;
mod ended;
mod impact_reply;
mod input;
mod laws;
mod owed;
mod reads;
mod rebase;
mod resumed;
mod table_desk;

pub use buffer::ReplyBuffer;
pub use check::{RunFault, run_check};
pub use conversation::converse_owed;
pub use desk::{Desk, Plain, converse};
pub use ended::Ended;
pub use laws::{bytes_have_an_output, bytes_have_one_list_of_messages, bytes_have_one_output};
pub use owed::OwedDesk;
pub use reads::{MAX_READS, Reads};
pub use rebase::run_rebase;
pub use resumed::{Conversation, PausedConversation, Turn};
pub use table_desk::{TableDesk, converse_over_table};
pub use tfs_http::{LentFault, Outlet, ServeFault, Source, Watched};
