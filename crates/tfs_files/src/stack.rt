//! Limits of thread stacks.

ghost use Rattle.std.specs.Prelude.{◌≡◌, ◌≤◌, ◌<◌, IfSome, IfErr};
ghost use Rattle.tfs_files.specs.declared.fault.CommandFault.TheVariants.{SmallStack};

use crate::fault::CommandFault;
use libc::types::rlimit;
use libc::{RLIMIT_STACK, getrlimit};

/// The smallest thread stack, in bytes, that suffices for every request (tests/test_serve.py).
pub const LEAST_STACK: u64 = 524_288;

/// Refuses a stack limit below the smallest one. The C library gives each thread a stack of the
/// limit with which the program was started.
pub fn refuse_small_stack() -> Result<(), CommandFault>
    ensures small { IfErr result (λ fault. (limit : _) × (fault ≡ SmallStack limit) × (limit < 524_288)) }
{
    match limit_of_stacks() {
        Some(limit) if limit < LEAST_STACK => Err(CommandFault::SmallStack(limit)),
        _ => Ok(()),
    }
}

/// Returns the stack limit, if the system reports it.
fn limit_of_stacks() -> Option<u64> {
    let mut limit = rlimit {
        rlim_cur: 0,
        rlim_max: 0,
    };
    if getrlimit(RLIMIT_STACK, &mut limit) != 0 {
        return None;
    }
    Some(limit.rlim_cur)
}
