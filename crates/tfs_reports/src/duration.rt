//! Durations in readable units.

ghost use Rattle.std.specs.Prelude.{◌≡◌, IfOk, string_bytes};
ghost use Rattle.tfs_reports.specs.Duration.{duration_text};

use std::alloc::{AllocError, Global};

/// Returns a number of seconds in its two largest units, rounded down: `2d 3h`.
pub(crate) fn duration_text(alloc: Global, seconds: u64) -> Result<String, AllocError>
    ensures { IfOk result (λ text. string_bytes text ≡ duration_text seconds) }
{
    let (minutes, hours, days) = (seconds / 60, seconds / 3600, seconds / 86_400);
    if 0 < days {
        let rest = hours % 24;
        format!(in alloc; "{days}d {rest}h")
    } else if 0 < hours {
        let rest = minutes % 60;
        format!(in alloc; "{hours}h {rest}m")
    } else {
        let rest = seconds % 60;
        format!(in alloc; "{minutes}m {rest}s")
    }
}
