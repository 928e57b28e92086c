//! Laws of conversations.

ghost use Rattle.std.specs.Prelude.{◌≡◌, ℕ, List};
ghost use Rattle.tfs_conversation.specs.Messages.{Messages, HasMessages, Stop};
ghost use Rattle.tfs_table.specs.Table.{TableValue, model_of};
ghost use Rattle.tfs_conversation.specs.Output.{HasOutput};
ghost use Rattle.tfs_conversation.specs.declared.ended.Ended.{Ended};

use tfs_calls::answers_of_the_model_are_undisturbed;
use tfs_framing::what_bytes_begin_with_is_one_thing_and_stays;
use tfs_http::what_becomes_of_a_request_is_one_thing;

/// Proves that each list of bytes has exactly one list of messages: the requests, the bytes after
/// their messages, the refusal of these bytes if there is one, and how the messages stop. They
/// don't depend on a desk.
pub fn bytes_have_one_list_of_messages()
    ensures some { (bytes : List ℕ) → (m : Messages) × (ended : Ended) × HasMessages bytes m × Stop m ended }
    ensures once { (bytes : List ℕ) (m n : Messages) (ended end : Ended) → HasMessages bytes m → Stop m ended
        → HasMessages bytes n → Stop n end → (m ≡ n) × (ended ≡ end) }
{
    what_bytes_begin_with_is_one_thing_and_stays();
}

/// Proves that each list of bytes has an output over each table, if no request for memory is
/// refused and the sink doesn't fail.
pub fn bytes_have_an_output()
    ensures some { (old : TableValue) (bytes : List ℕ)
        → (new : TableValue) × (text : List ℕ) × (ended : Ended) × HasOutput old new bytes text ended }
{
    what_bytes_begin_with_is_one_thing_and_stays();
    what_becomes_of_a_request_is_one_thing();
    answers_of_the_model_are_undisturbed();
}

/// Proves that bytes have at most one output over a table. The text, the journal after the
/// conversation, whether the table is then stopped, and how the conversation ends are functions of
/// the bytes, of the journal at the start, and of whether the table was stopped. They don't depend
/// on how the bytes were cut into reads or on the sink.
pub fn bytes_have_one_output()
    ensures model { (old new start other : TableValue) (bytes text also : List ℕ) (ended end : Ended) → model_of old ≡ model_of start
        → HasOutput old new bytes text ended → HasOutput start other bytes also end → model_of new ≡ model_of other }
    ensures text { (old new start other : TableValue) (bytes text also : List ℕ) (ended end : Ended) → model_of old ≡ model_of start
        → HasOutput old new bytes text ended → HasOutput start other bytes also end → text ≡ also }
    ensures ended { (old new start other : TableValue) (bytes text also : List ℕ) (ended end : Ended) → model_of old ≡ model_of start
        → HasOutput old new bytes text ended → HasOutput start other bytes also end → ended ≡ end }
{
    what_bytes_begin_with_is_one_thing_and_stays();
    what_becomes_of_a_request_is_one_thing();
}
