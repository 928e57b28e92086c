//! Laws of the definitions. Each function has an empty body; its contract is the law.

ghost use Rattle.std.specs.Prelude.{◌≡◌, ◌⊎◌, ◌↔◌, ◌∷◌, ℕ, List, Some, None, IsUtf8};
ghost use Rattle.tfs_addr.specs.Address.{opening, closing, Piece, ReadsPieces, HasNoReading, IsStripped, BeginsNoPiece, StopsAt, stripped_text};

/// States that a text has at most one reading as pieces.
pub fn reads_once()
    ensures unique { (text : List ℕ) (first second : List Piece) → ReadsPieces text first → ReadsPieces text second
        → first ≡ second }
{}

/// States that a text either reads as pieces, or has exactly one position at which reading stops: a
/// bracket is there, and no piece begins with it.
pub fn reads_or_stops()
    ensures either { (text : List ℕ) → IsUtf8 text → ((bare : List ℕ) × IsStripped text bare)
        ⊎ (((at : ℕ) × StopsAt text opening at) ⊎ ((at : ℕ) × StopsAt text closing at)) }
    ensures not_both { (text : List ℕ) (c at : ℕ) → StopsAt text c at → HasNoReading text }
    ensures one_stop { (text : List ℕ) (c at d n : ℕ) → StopsAt text c at → StopsAt text d n
        → (c ≡ d) × (at ≡ n) }
    ensures no_piece { (text : List ℕ) (c at : ℕ) (stop : StopsAt text c at)
        → BeginsNoPiece (c ∷ stop.rest) }
{}

/// States that the function on texts agrees with the relation over their pieces.
pub fn stripped_text_agrees()
    ensures some { (text bare : List ℕ) → IsUtf8 text
        → ((stripped_text text ≡ Some bare) ↔ IsStripped text bare) }
    ensures none { (text : List ℕ) → IsUtf8 text → ((stripped_text text ≡ None) ↔ HasNoReading text) }
{}

/// States that a stripped text has no keys left.
pub fn strips_once()
    ensures stays { (text bare : List ℕ) → IsStripped text bare → IsStripped bare bare }
{}
