//! Digests for looking up texts.

ghost use Rattle.std.specs.Prelude.{◌≡◌, ◌++◌};
ghost use Rattle.std.specs.List.{fold};
ghost use Rattle.tfs_state.specs.Digest.{digest_of, digest_with};

/// The digest of no bytes.
const OFFSET_BASIS: u64 = 14_695_981_039_346_656_037;

/// The factor that a digest is multiplied by for each byte.
const PRIME: u64 = 1_099_511_628_211;

/// Returns the digest of a text. Different texts may have the same digest, and anyone can construct
/// such texts.
pub fn text_digest(text: &str) -> u64
    ensures value { result ≡ digest_of text.now }
{
    digest_on(OFFSET_BASIS, text.as_bytes())
}

/// Returns the digest of `text` followed by `rest`, from the digest of `text`.
pub(crate) fn longer_digest(text: &str, digest: u64, rest: &str) -> u64
    requires { digest ≡ digest_of text.now }
    ensures { result ≡ digest_of (text.now ++ rest.now) }
{
    digest_on(digest, rest.as_bytes())
}

/// Returns the digest of a text. `digest` is the digest of `other`, which often equals the text.
pub(crate) fn digest_beside(text: &str, other: &str, digest: u64) -> u64
    requires { digest ≡ digest_of other.now }
    ensures { result ≡ digest_of text.now }
{
    if text == other {
        digest
    } else {
        text_digest(text)
    }
}

/// Returns the digest extended by more bytes.
fn digest_on(digest: u64, bytes: &[u8]) -> u64
    ensures { result ≡ fold digest_with digest bytes.now }
{
    bytes.iter().fold(
        digest,
        |digest, byte| (digest ^ u64::from(*byte)).wrapping_mul(PRIME),
    )
}
