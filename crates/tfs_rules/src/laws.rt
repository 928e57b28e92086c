//! Laws of histories.

ghost use Rattle.std.specs.Prelude.{◌≡◌, ◌↔◌, [], ◌∷◌, ◌++◌, All, Option, IsSome};
ghost use Rattle.tfs_state.specs.Document.{Document};
ghost use Rattle.tfs_lock.specs.LockInfo.{LockInformation};
ghost use Rattle.tfs_rules.specs.Act.{ActValue, IsRead};
ghost use Rattle.tfs_rules.specs.History.{History, Standing, IsCurrentState, state_of, IsHolder, holder_of};
ghost use Rattle.tfs_rules.specs.HistoryLaws.{KeepsHistoryLaws, LocksOfOneTextHaveOneIdentifier};
ghost use Rattle.tfs_rules.specs.Verdict.{IsAccepted, verdict_of, verdict_over};
ghost use Rattle.tfs_rules.specs.declared.verdict.Verdict.TheVariants.{Accept, Locked};

/// States that the state computed act by act is the document of the history's last push unless a
/// delete follows it, and that no other state satisfies this.
pub fn the_current_state_is_that_of_the_last_push()
    ensures found { (h : History) → IsCurrentState h (state_of h) }
    ensures only { (h : History) (state : Option Document) → IsCurrentState h state
        → state ≡ state_of h }
{}

/// States that the holder computed act by act is the information of the history's last lock unless
/// an unlock follows it, and that no other holder satisfies this.
pub fn the_holder_is_that_of_the_last_lock()
    ensures found { (h : History) → IsHolder h (holder_of h) }
    ensures only { (h : History) (holder : Option LockInformation) → IsHolder h holder
        → holder ≡ holder_of h }
{}

/// States that a history is accepted if and only if it was accepted before its last act, and that
/// act is accepted after it.
pub fn histories_are_accepted_act_by_act()
    ensures none { IsAccepted [] }
    ensures more { (h : History) (act : ActValue) → IsAccepted (h ++ act ∷ [])
        ↔ (IsAccepted h × (verdict_of h act ≡ Accept)) }
{}

/// States that a history in which locks with the same text have the same identifier is accepted if
/// and only if it keeps the history laws. Locks that were read have this property. The laws refer
/// to positions and to no verdict.
pub fn histories_are_accepted_where_they_keep_the_history_laws()
    ensures accepted { (h : History) → LocksOfOneTextHaveOneIdentifier h
        → (IsAccepted h ↔ KeepsHistoryLaws h) }
    ensures read { (h : History) → All IsRead h → LocksOfOneTextHaveOneIdentifier h }
{}

/// States that the verdict on an act is `Locked` only if the lock is held.
pub fn locked_acts_have_a_holder()
    ensures held { (standing : Standing) (act : ActValue) → verdict_over standing act ≡ Locked
        → IsSome standing.holder }
{}
