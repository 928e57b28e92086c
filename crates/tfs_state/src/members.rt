//! The members of a state that are read.

ghost use Rattle.std.specs.Prelude.{◌≡◌, option_copied};
ghost use Rattle.tfs_json.specs.Tree.{tree_view as view};
ghost use Rattle.tfs_state.specs.StateText.{version_of, serial_of, lineage_of};

use tfs_json::{Tree, text_at, whole_number_at};

/// Returns the version of the format.
pub(crate) fn version_of(value: &Tree<'_>) -> Option<u64>
    ensures { result ≡ version_of (view value.now) }
{
    whole_number_at(value, "version")
}

/// Returns the serial.
pub(crate) fn serial_of(value: &Tree<'_>) -> Option<u64>
    ensures { result ≡ serial_of (view value.now) }
{
    whole_number_at(value, "serial")
}

/// Returns the lineage, if it is a text that isn't empty.
pub(crate) fn lineage_of<'t>(value: &Tree<'t>) -> Option<&'t str>
    ensures { option_copied result ≡ lineage_of (view value.now) }
{
    let text = text_at(value, "lineage")?;
    if text.is_empty() { None } else { Some(text) }
}
