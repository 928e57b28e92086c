//! The server of the web page: answers requests from a folder of journals that may be served
//! meanwhile. Nothing in the folder is changed.
#![tactic(auto)]

mod answers;
mod changes;
mod files;
mod headers;
mod reading;
mod server;
mod site;
mod stream;

pub use files::PageFiles;
pub use server::{WebPlan, serve_web};
