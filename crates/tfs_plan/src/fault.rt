//! The errors of reading a plan.

ghost use Rattle.std.specs.Prelude.{◌≡◌};
ghost use Rattle.tfs_plan.specs.declared.fault.PlanFault.TheVariants.{NoMemory};

use std::alloc::AllocError;
use thiserror::Error;

/// Why bytes aren't read as a plan. The variants are in the order of the checks; each change is
/// checked before the next one. A number is the index of a change in `resource_changes`.
#[derive(Clone, Copy, Debug, PartialEq, Eq, Error)]
pub enum PlanFault {
    /// The bytes aren't a JSON text (RFC 8259), are nested deeper than 127, or have a number
    /// outside the range of `serde_json`'s numbers.
    #[error("NotJson: it is not a JSON text. Give what `terraform show -json PLAN` prints")]
    NotJson,
    /// The value has no `format_version` that begins with `1.`, or no `planned_values`.
    #[error("NotPlan: it is not a plan of format 1. Give what `terraform show -json PLAN` prints")]
    NotPlan,
    /// `resource_changes` isn't a list.
    #[error("Changes: resource_changes is not a list")]
    Changes,
    /// There are more than 65,536 changes.
    #[error("TooManyChanges: the plan has more than 65536 changes")]
    TooManyChanges,
    /// The `address` isn't a text.
    #[error("Address: the address of resource_changes[{0}] is not a text")]
    Address(usize),
    /// The `previous_address` isn't a text.
    #[error("PreviousAddress: the previous_address of resource_changes[{0}] is not a text")]
    PreviousAddress(usize),
    /// `deposed` isn't a text.
    #[error("Deposed: deposed of resource_changes[{0}] is not a text")]
    Deposed(usize),
    /// `change.actions` isn't a list of actions that the format has.
    #[error("Actions: the actions of resource_changes[{0}] are unknown")]
    Actions(usize),
    /// A request for memory was refused.
    #[error("OutOfMemory: there is not enough memory to read it")]
    NoMemory,
}

impl From<AllocError> for PlanFault {
    ghost from_gives = { λ _ fault. fault ≡ NoMemory };

    fn from(_error: AllocError) -> PlanFault {
        PlanFault::NoMemory
    }
}
