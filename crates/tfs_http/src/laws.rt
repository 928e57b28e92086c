//! Laws of routing and replies, which hold for all requests and all replies.

ghost use Rattle.std.specs.Prelude.{◌≡◌, ◌≢◌, ℕ, List, [], Result};
ghost use Rattle.std.specs.List.{concat};
ghost use Rattle.tfs_state.specs.Document.{Document};
ghost use Rattle.tfs_calls.specs.declared.call.Call.{Call};
ghost use Rattle.tfs_calls.specs.declared.refusal.Refusal.{Refusal};
ghost use Rattle.tfs_framing.specs.Request.{RequestValue};
ghost use Rattle.tfs_http.specs.Routing.{RoutesTo};
ghost use Rattle.tfs_http.specs.Pieces.{IsToldIn};
ghost use Rattle.tfs_http.specs.ReplyText.{body_of, impact_body, phrase_of, status_of};
ghost use Rattle.tfs_calls.specs.Reply.{ReplyValue, impact};

/// A request has either a call or a refusal: exactly one of them.
pub fn what_becomes_of_a_request_is_one_thing()
    ensures each { (r : RequestValue) → (x : Result Call Refusal) × RoutesTo r x }
    ensures once { (r : RequestValue) (x y : Result Call Refusal) → RoutesTo r x → RoutesTo r y → x ≡ y }
{}

/// The status of each reply has a phrase.
pub fn each_status_has_its_phrase()
    ensures phrase { (reply : ReplyValue) → phrase_of (status_of reply) ≢ [] }
{}

/// The pieces in which the body of an impact's reply is produced are, joined, that body.
pub fn pieces_of_an_answer_are_its_body()
    ensures joined { (d : Document) (chosen : List ℕ) (position : ℕ) (pieces : List (List ℕ))
        → IsToldIn (impact_body d chosen position) pieces → concat pieces ≡ body_of (impact d chosen position) }
{}
