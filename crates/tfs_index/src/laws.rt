//! Laws of reach and impact. They hold for any query.

ghost use Rattle.std.specs.Prelude.{ℕ, ◌↔◌, List, Contains, IsTrue};
ghost use Rattle.std.specs.List.Sorted.{IsStrictlyIncreasing};
ghost use Rattle.tfs_index.specs.Impact.{named_by, any_impact, all_impact, Names, IsReachedBySome, IsReachedByEach};
ghost use Rattle.tfs_index.specs.Reach.{reaches, Reaches};
ghost use Rattle.tfs_state.specs.Document.{Document};

/// States that the computed definitions agree with the relations over names and walks, and that
/// lists of impact are in ascending order.
pub fn impact_follows_names_and_walks()
    ensures reach { (d : Document) (v u : ℕ) → IsTrue (reaches d v u) ↔ Reaches d v u }
    ensures named { (d : Document) (text : List ℕ) (v : ℕ)
        → Contains (named_by d text) v ↔ Names d text v }
    ensures any { (d : Document) (texts : List (List ℕ)) (u : ℕ)
        → Contains (any_impact d texts) u ↔ IsReachedBySome d texts u }
    ensures all { (d : Document) (texts : List (List ℕ)) (u : ℕ)
        → Contains (all_impact d texts) u ↔ IsReachedByEach d texts u }
    ensures any_rises { (d : Document) (texts : List (List ℕ))
        → IsStrictlyIncreasing (any_impact d texts) }
    ensures all_rises { (d : Document) (texts : List (List ℕ))
        → IsStrictlyIncreasing (all_impact d texts) }
{}
