//! The fields of a head: lookup by name, `Connection: close`, and the digest of the body.

ghost use Rattle.std.specs.Prelude.{◌≡◌, map, length, All, ◌==◌, ◌||◌, ◌<◌, ◌∷◌, [], reverse, codes, IfSome, IfNone, ℕ, List};
ghost use Rattle.std.specs.Str.{bytes_eq};
ghost use Rattle.httparse.specs.Spans.{IsHeaderWithin, header_bytes};
ghost use Rattle.tfs_framing.specs.Fields.{TellsValues, lower, values_named};
ghost use Rattle.std.specs.List.{list_any};
ghost use Rattle.httparse.specs.Grammar.{trim_ows, skip_ows};
ghost use Rattle.tfs_framing.specs.Connection.{is_close, lists_close, parts_of};
ghost use Rattle.tfs_framing.specs.Digest.{digest_text, fits_values, has_asked};

use base64::engine::general_purpose::STANDARD;
use httparse::spans::HeaderSpan;
use md5::{Digest, Md5};
use memchr::memchr;

/// The values of the fields with one name.
#[derive(Clone, Copy)]
pub(crate) enum Values<'h> {
    /// There is no such field.
    Absent,
    /// There is one field, with this value.
    One(&'h [u8]),
    /// There are several fields.
    Several,
}

/// Returns the values of the fields with a name, which must be in lower case. The spans of the
/// fields are within the head.
pub(crate) fn values_named<'h>(head: &'h [u8], fields: &[HeaderSpan], name: &[u8]) -> Values<'h>
    requires within { All (IsHeaderWithin (length head.now)) fields.now }
    requires lower_case { lower name.now ≡ name.now }
    ensures { TellsValues result (values_named name.now (map (header_bytes head.now) fields.now)) }
{
    values_like(head, fields, name)
}

/// Returns the values of the fields with a name, in any case. The spans of the fields are within the
/// head.
pub(crate) fn values_like<'h>(head: &'h [u8], fields: &[HeaderSpan], name: &[u8]) -> Values<'h>
    requires within { All (IsHeaderWithin (length head.now)) fields.now }
    ensures { TellsValues result (values_named (lower name.now) (map (header_bytes head.now) fields.now)) }
{
    let mut found: Option<&[u8]> = None;
    let mut rest = fields;
    while let Some((field, others)) = rest.split_first() {
        if is_like(field.name.of(head), name) {
            if found.is_some() {
                return Values::Several;
            }
            found = Some(field.value.of(head));
        }
        rest = others;
    }
    match found {
        Some(value) => Values::One(value),
        None => Values::Absent,
    }
}

/// Returns true if both texts are equal in lower case.
fn is_like(text: &[u8], other: &[u8]) -> bool
    ensures { result ≡ bytes_eq (lower text.now) (lower other.now) }
{
    text.eq_ignore_ascii_case(other)
}

/// Returns true if the text is the word in any case. The word must be in lower case.
pub(crate) fn is_word(text: &[u8], word: &[u8]) -> bool
    requires { lower word.now ≡ word.now }
    ensures { result ≡ bytes_eq (lower text.now) word.now }
{
    text.eq_ignore_ascii_case(word)
}

/// Returns true if the version or the fields of a head ask to close the connection. The spans of
/// the fields are within the head.
pub(crate) fn asks_to_close(minor: u8, head: &[u8], fields: &[HeaderSpan]) -> bool
    requires { All (IsHeaderWithin (length head.now)) fields.now }
    ensures { result ≡ (minor == 0 || list_any lists_close (values_named (codes "connection") (map (header_bytes head.now) fields.now))) }
{
    minor == 0 || has_closing_field(head, fields)
}

/// Returns true if a `Connection` field lists `close`.
fn has_closing_field(head: &[u8], fields: &[HeaderSpan]) -> bool
    requires { All (IsHeaderWithin (length head.now)) fields.now }
    ensures { result ≡ list_any lists_close (values_named (codes "connection") (map (header_bytes head.now) fields.now)) }
{
    let mut rest = fields;
    while let Some((field, others)) = rest.split_first() {
        if is_word(field.name.of(head), b"connection") && lists_close(field.value.of(head)) {
            return true;
        }
        rest = others;
    }
    false
}

/// Returns true if a part of the comma-separated value is `close`.
fn lists_close(value: &[u8]) -> bool
    ensures { result ≡ lists_close value.now }
{
    let mut rest = value;
    while let Some((part, others)) = split_at_comma(rest) {
        if is_close(part) {
            return true;
        }
        rest = others;
    }
    is_close(rest)
}

/// Returns the text before the first comma and the text after it, or `None` without a comma.
fn split_at_comma(text: &[u8]) -> Option<(&[u8], &[u8])>
    ensures found { IfSome result (λ parts. parts_of text.now ≡ parts.0.now ∷ parts_of parts.1.now) }
    ensures less { IfSome result (λ parts. length parts.1.now < length text.now) }
    ensures absent { IfNone result (parts_of text.now ≡ text.now ∷ []) }
{
    match memchr(b',', text) {
        Some(place) => Some((&text[..place], &text[place + 1..])),
        None => None,
    }
}

/// Returns true if the part is `close`, in any case, with optional spaces and tabs around it.
fn is_close(part: &[u8]) -> bool
    ensures { result ≡ is_close part.now }
{
    is_word(trim_ows(part), b"close")
}

/// Returns the text without leading and trailing spaces and tabs.
fn trim_ows(text: &[u8]) -> &[u8]
    ensures { result.now ≡ trim_ows text.now }
{
    skip_last_ows(skip_ows(text))
}

/// Returns the text without leading spaces and tabs.
fn skip_ows(text: &[u8]) -> &[u8]
    ensures { result.now ≡ skip_ows text.now }
{
    let mut rest = text;
    while let [b' ' | b'\t', others @ ..] = rest {
        rest = others;
    }
    rest
}

/// Returns the text without trailing spaces and tabs.
fn skip_last_ows(text: &[u8]) -> &[u8]
    ensures { result.now ≡ reverse (skip_ows (reverse text.now)) }
{
    let mut rest = text;
    while let [others @ .., b' ' | b'\t'] = rest {
        rest = others;
    }
    rest
}

/// The length of a digest's base64 text: four bytes for each three of its 16 bytes, the last group
/// padded.
const DIGEST_TEXT_BYTES: usize = 24;

/// The digest that a head requires of its body.
#[derive(Clone, Copy)]
pub(crate) enum AskedDigest {
    /// Any digest: there is no `Content-MD5` field.
    Any,
    /// The digest with this base64 text.
    Text([u8; DIGEST_TEXT_BYTES]),
    /// No digest matches: there are several fields, or the value of the only one has another
    /// length.
    Impossible,
}

/// Returns the digest that the values of the `Content-MD5` fields require.
pub(crate) fn asked_digest(values: Values<'_>) -> AskedDigest
    ensures { (told : List (List ℕ)) (body : List ℕ) → TellsValues values.entry told
        → has_asked result body ≡ fits_values told body }
{
    match values {
        Values::Absent => AskedDigest::Any,
        Values::One(text) => digest_of_text(text),
        Values::Several => AskedDigest::Impossible,
    }
}

/// Returns the digest that the value of the only `Content-MD5` field requires.
fn digest_of_text(value: &[u8]) -> AskedDigest
    ensures { (body : List ℕ) → has_asked result body ≡ bytes_eq value.now (digest_text body) }
{
    if value.len() != DIGEST_TEXT_BYTES {
        return AskedDigest::Impossible;
    }
    let mut text = [0; DIGEST_TEXT_BYTES];
    text.as_mut_slice().copy_from_slice(value);
    AskedDigest::Text(text)
}

/// Returns true if the body has the required digest.
pub(crate) fn has_asked(asked: &AskedDigest, body: &[u8]) -> bool
    ensures { result ≡ has_asked asked.now body.now }
{
    match asked {
        AskedDigest::Any => true,
        AskedDigest::Text(text) => is_digest_of(text.as_slice(), body),
        AskedDigest::Impossible => false,
    }
}

/// Returns true if the text is the base64 text of the body's MD5.
fn is_digest_of(text: &[u8], body: &[u8]) -> bool
    ensures { result ≡ bytes_eq text.now (digest_text body.now) }
{
    let digest = Md5::digest(body);
    let mut wanted = [0; DIGEST_TEXT_BYTES];
    match STANDARD.encode_slice(digest.as_slice(), wanted.as_mut_slice()) {
        Ok(_) => text == wanted.as_slice(),
        Err(_) => false,
    }
}
