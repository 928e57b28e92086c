//! The plan that `terraform show -json PLAN` prints: the changes that it holds, the instances of a
//! state that these change, what they reach, and the chain of dependencies that leads there.
#![tactic(auto)]

mod action;
mod chain;
mod change;
mod effect;
mod fault;
mod find;
mod ignored;
mod plan;
mod reach;
mod same;
mod stored;

pub use action::Action;
pub use chain::Chains;
pub use change::Change;
pub use effect::{Effect, changes_with};
pub use fault::PlanFault;
pub use find::instance_of;
pub use plan::{MAX_CHANGES, read_plan};
pub use reach::reached;
pub use stored::stored_address;
