//! The impact of a plan: a row for each changed instance and for each one that these reach, as
//! text, Markdown, a picture or JSON.
#![tactic(auto)]

mod lines;
mod rows;
mod text;
mod words;

pub use rows::{PlanRows, rows_of};
pub use text::{PlanForm, text_of};
