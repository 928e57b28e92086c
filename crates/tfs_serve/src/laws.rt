//! Laws about the replies and the journal that a run leaves.

ghost use Rattle.std.specs.Prelude.{Bool, List, Option, flat_map};
ghost use Rattle.tfs_records.specs.Journal.{Journal};
ghost use Rattle.tfs_serve.specs.Following.{FollowOneJournal};
ghost use Rattle.tfs_serve.specs.Gate.{Event};
ghost use Rattle.tfs_serve.specs.Serving.{RepliesInTurn, ServedView, IsRun, answers_on};
ghost use Rattle.tfs_serve.specs.Standing.{AcceptedStand};
ghost use Rattle.tfs_serve.specs.Working.{Answer};

use crate::hold::Hold;

/// In the journal that a run leaves, each accepted change is at the position that its reply
/// reports.
#[tactic(auto, using(crate::proofs::Standing::accepted_stand))]
pub fn accepted_changes_stand_in_the_last_journal()
    ensures stand { (opening last seen end : Journal) (answers : List Answer) → RepliesInTurn opening last seen answers end
        → AcceptedStand last answers }
{}

/// All replies of a run follow one lawful journal, which the run leaves. Each reply, except
/// `NoCopy`, is the model's answer over a lawful prefix of it. Each accepted change is in it at the
/// reported position. Each position beyond the opening one was reported by exactly one reply.
pub fn all_replies_follow_one_journal<H: Hold>()
    ensures follow { (opening last : Journal) (was is : Bool) (told : List (Option (List Event))) (served : List ServedView)
        → (run : IsRun H.durable opening last was is told served) → FollowOneJournal opening last was is (flat_map answers_on run.connections) }
{}
