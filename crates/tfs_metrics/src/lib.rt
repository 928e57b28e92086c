//! The numbers of a running server: answered requests and their durations, and compactions; and
//! their text for Prometheus.
#![tactic(auto)]

mod answers;
mod durations;
mod kind;
mod memory;
mod meter;
mod scrape;
mod text;

pub use answers::{Answers, AnswersRow};
pub use durations::{BOUNDS, Durations};
pub use kind::Kind;
pub use meter::{Compactions, Journal, Meter};
pub use scrape::Scrape;
