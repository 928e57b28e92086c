//! Laws of the transition.

ghost use Rattle.std.specs.Prelude.{◌≡◌, ◌≢◌, ℕ, List, Some};
ghost use Rattle.tfs_rules.specs.Act.{ActValue};
ghost use Rattle.tfs_calls.specs.Draft.{act_of};
ghost use Rattle.tfs_calls.specs.Refusal.{out_of_memory, journal_fault};
ghost use Rattle.tfs_calls.specs.Reply.{ReplyValue, refused};
ghost use Rattle.tfs_calls.specs.Transition.{TableModel, AnswersAct, Answers, answer_of};
ghost use Rattle.tfs_calls.specs.declared.call.Call.{Call};
ghost use Rattle.tfs_calls.specs.declared.call.Call.TheVariants.{Change};
ghost use Rattle.tfs_calls.specs.declared.call.Raw.{Raw};

use tfs_lock::bytes_spell_lock_info_or_have_a_fault;
use tfs_state::bytes_spell_a_document_or_have_a_fault;

/// A change whose texts give an act has exactly the replies of that act.
pub fn a_change_is_answered_as_its_act_is()
    ensures call { (m after : TableModel) (name : List ℕ) (raw : Raw) (act : ActValue) (reply : ReplyValue)
        → act_of raw ≡ Some act → AnswersAct m name act reply after → Answers m (Change name raw) reply after }
    ensures act { (m after : TableModel) (name : List ℕ) (raw : Raw) (act : ActValue) (reply : ReplyValue)
        → act_of raw ≡ Some act → Answers m (Change name raw) reply after → AnswersAct m name act reply after }
{}

/// The model's reply to a call is never OutOfMemory or JournalFault.
pub fn answers_of_the_model_are_undisturbed()
    ensures memory { (m : TableModel) (call : Call) → answer_of m call ≢ refused out_of_memory }
    ensures fault { (m : TableModel) (call : Call) → answer_of m call ≢ refused journal_fault }
{
    bytes_spell_a_document_or_have_a_fault();
    bytes_spell_lock_info_or_have_a_fault();
}
