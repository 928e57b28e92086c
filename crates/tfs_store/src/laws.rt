//! Laws of a register that any number of servers change by moves of its head.

ghost use Rattle.std.specs.Prelude.{◌≡◌, ℕ, List, [], ◌∷◌, ◌++◌, Some, None, option_map};
ghost use Rattle.std.specs.List.{slice_get};
ghost use Rattle.tfs_store.specs.Values.{MoveValue};
ghost use Rattle.tfs_store.specs.Register.{Event, Start, Send, Arrive, Hear, Server, run, empty, move_of, Has, head_of, IsChain, newest, EndsWith, Knows};

/// States that the heads form one chain, whatever happens: each move was made from the head that its
/// predecessor left, to a later position, and the newest left the register's head. Later events
/// only add moves.
pub fn heads_form_one_chain()
    ensures chain { (events : List Event) → IsChain (run events empty).moves }
    ensures head { (events : List Event)
        → (run events empty).register.head ≡ head_of (run events empty).moves }
    ensures kept { (events more : List Event)
        → EndsWith (run (events ++ more) empty).moves (run events empty).moves }
{}

/// States that two moves are never carried out from one head.
pub fn no_two_groups_follow_one_head()
    ensures one { (events : List Event) (i j : ℕ) (m n : MoveValue)
        → slice_get (run events empty).moves i ≡ Some m
        → slice_get (run events empty).moves j ≡ Some n → m.from ≡ n.from → i ≡ j }
{}

/// States that if an answer showed a server that its move is done, the move was carried out, and is
/// among the moves that lead to every later head.
pub fn done_groups_are_in_every_later_head()
    ensures kept { (events more : List Event) (token : ℕ) (s : Server) (m : MoveValue)
        → (run events empty).servers token ≡ Some s → Has s.done m
        → Has (run (events ++ more) empty).moves m }
{}

/// States that the moves, one after another, put the rows, and that a server knows head and rows as
/// the moves up to its own last one left them. So a server that starts has the rows of the head that
/// it read, and no other server's move is between its own.
pub fn rows_are_those_that_the_moves_put()
    ensures rows { (events : List Event) (name : List ℕ)
        → (run events empty).register.rows name ≡ newest name (run events empty).moves }
    ensures known { (events : List Event) (token : ℕ) (s : Server)
        → (run events empty).servers token ≡ Some s → Knows s (run events empty).moves }
{}

/// An example: a server's move arrives, the answer is lost, the move arrives again, and the answer
/// shows that it is done. A second server that started before cannot move the head any more.
pub fn a_move_that_arrives_twice_is_done_once()
    ensures done { let events = Start 7 ∷ Start 8 ∷ Send 7 3 [] ∷ Arrive 0 ∷ Arrive 0 ∷ Hear 7 0 ∷ [] in
        option_map (λ (s : Server). s.done) ((run events empty).servers 7) ≡ Some (move_of 7 None 3 [] ∷ []) }
    ensures once { let events = Start 7 ∷ Start 8 ∷ Send 7 3 [] ∷ Arrive 0 ∷ Arrive 0 ∷ Send 8 4 [] ∷ Arrive 0 ∷ [] in
        (run events empty).moves ≡ move_of 7 None 3 [] ∷ [] }
{}
