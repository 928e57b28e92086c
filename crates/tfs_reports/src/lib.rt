//! Reports about a folder of journals that may be served meanwhile: its workspaces, the history and
//! versions of a workspace, what a change or a plan reaches, which workspaces read a workspace, and
//! metrics for a monitor. Nothing in the folder is changed.
#![tactic(auto)]

mod across;
mod acts;
mod clients;
mod clock;
mod comparison;
mod duration;
mod fault;
mod files;
mod filter;
mod holder;
mod kept;
mod listing;
mod locks;
mod measures;
mod monitor;
mod names;
mod output;
mod plan;
mod reach;
mod report;
mod rows;
mod server;
mod texts;
mod times;
mod versions;

pub use across::print_across;
pub use acts::{Printing, history, history_rows};
pub use clients::{Record, Records, records_of_last_changes};
pub use comparison::{Comparison, print_diff};
pub use fault::{ReportEnd, ReportFault, ReportPlace, end_by, status_of};
pub use files::{Newest, newest_journal};
pub use filter::Asked;
pub use holder::print_holder;
pub use listing::{Listing, list, workspace_row};
pub use monitor::stats;
pub use plan::{PlanAsked, StateSource, print_plan_impact};
pub use reach::{Form, fault_of, print_impact, query_of};
pub use texts::member;
pub use times::At;
pub use versions::{restore, show, version_of};
