//! Laws of views.

ghost use Rattle.std.specs.Prelude.{◌≡◌, ◌≤◌, List};
ghost use mathlib.Core.List.{IsPrefix};
ghost use Rattle.tfs_records.specs.Journal.{Journal, position_of};
ghost use Rattle.tfs_published.specs.Change.{ChangeValue, journal_after};
ghost use Rattle.tfs_published.specs.Beginning.{BeginsWith};

/// A view is one journal. `BeginsWith` is reflexive and transitive. If a journal begins with two
/// others, the one whose position isn't lower begins with the other, so that it has all that both
/// have. A journal with more changes begins with the journal that has fewer of them.
pub fn a_view_is_one_journal()
    ensures itself { (j : Journal) → BeginsWith j j }
    ensures earlier { (last middle first : Journal) → BeginsWith last middle
        → BeginsWith middle first → BeginsWith last first }
    ensures longer { (whole a b : Journal) → BeginsWith whole a → BeginsWith whole b
        → position_of b ≤ position_of a → BeginsWith a b }
    ensures more { (opening : Journal) (first more : List ChangeValue) → IsPrefix first more
        → BeginsWith (journal_after opening more) (journal_after opening first) }
{}
