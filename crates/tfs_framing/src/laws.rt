//! Laws of framing, which hold for all bytes.

ghost use Rattle.std.specs.Prelude.{◌≢◌, ◌≡◌, ◌≤◌, ℕ, List, ◌++◌, length, All, Result};
ghost use Rattle.std.specs.declared.alloc.AllocError.{AllocError};
ghost use Rattle.http_header.specs.FieldName.{IsFieldName};
ghost use Rattle.http_header.specs.FieldValue.{IsFieldValue};
ghost use Rattle.httparse.specs.Grammar.{RequestHead, field_value};
ghost use Rattle.tfs_framing.specs.Head.{IsHeadOf};
ghost use Rattle.tfs_framing.specs.Framing.{Frames, Opens};
ghost use Rattle.tfs_framing.specs.Sought.{IsSought};
ghost use Rattle.tfs_framing.specs.Decoded.{Decodes};
ghost use Rattle.tfs_framing.specs.declared.body.ChunkedBody.{ChunkedBody};
ghost use Rattle.tfs_framing.specs.declared.request.OpenRequest.{OpenRequest};
ghost use Rattle.tfs_framing.specs.declared.head.Search.{Search};
ghost use Rattle.tfs_framing.specs.declared.lines.BodyLength.{BodyLength};
ghost use Rattle.tfs_framing.specs.declared.framing.Take.{Take};
ghost use Rattle.tfs_framing.specs.declared.framing.Take.TheVariants.{Need};

/// Bytes begin with a message, are refused, or are unfinished: exactly one of the three. A message
/// or a refusal stays the same whatever bytes follow.
pub fn what_bytes_begin_with_is_one_thing_and_stays()
    ensures each { (bytes : List ℕ) → (t : Take) × Frames bytes t }
    ensures once { (bytes : List ℕ) (t u : Take) → Frames bytes t → Frames bytes u → t ≡ u }
    ensures stays { (bytes more : List ℕ) (t : Take) → t ≢ Need → Frames bytes t
        → Frames (bytes ++ more) t }
{}

/// What is known of a message stays true whatever bytes follow.
pub(crate) fn what_is_known_stays_whatever_bytes_follow()
    ensures sought { (bytes more : List ℕ) (search : Search) → IsSought bytes search → IsSought (bytes ++ more) search }
    ensures opens { (bytes more rest : List ℕ) (request : Result OpenRequest AllocError) (size : BodyLength)
        → Opens bytes request size rest → Opens (bytes ++ more) request size (rest ++ more) }
    ensures decoded { (bytes more left : List ℕ) (request : Result OpenRequest AllocError) (body : ChunkedBody)
        → Decodes bytes request body left → Decodes (bytes ++ more) request body (left ++ more) }
{}

/// The crate `http_header` accepts each field of a valid head of at most 16,384 bytes.
pub fn each_field_is_one_of_http_header()
    ensures fields { (head : List ℕ) (h : RequestHead) → length head ≤ 16384 → IsHeadOf head h
        → All (λ f. IsFieldName f.name × IsFieldValue (field_value f)) h.fields }
{}
