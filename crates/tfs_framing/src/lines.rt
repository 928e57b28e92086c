//! The lines of a head (RFC 9112, sections 3, 5 and 6.3), including the length of the body.

ghost use Rattle.std.specs.Prelude.{◌≡◌, IfOk, IfErr, IfSome, IfNone, ◌&&◌, ◌⊎◌, nat_lt, map, length, codes, All, ℕ, List, [], ◌∷◌};
ghost use Rattle.httparse.specs.Grammar.{RequestHead};
ghost use Rattle.httparse.specs.Spans.{IsRequestAt, IsRequestWithin, IsHeaderWithin, header_bytes};
ghost use Rattle.tfs_framing.specs.Head.{IsHeadOf, line_feeds};
ghost use Rattle.tfs_framing.specs.Body.{length_of_coding, length_of_text, length_told, length_of_fields, names_host};
ghost use Rattle.tfs_framing.specs.Lines.{IsToldBy};
ghost use Rattle.tfs_framing.specs.Framing.{ReadsHead, IsHeadRefused};
ghost use Rattle.std.specs.List.{list_all};
ghost use Rattle.std.specs.Char.{is_ascii_digit};
ghost use Rattle.tfs_framing.specs.Fields.{IsNotOne, TellsValues, fields_of, lower, values_named};

use crate::fields::{
    AskedDigest, Values, asked_digest, asks_to_close, is_word, values_like, values_named,
};
use crate::limits::{MAX_BODY_BYTES, MAX_FIELDS, MAX_HEAD_LINES};
use httparse::Status;
use httparse::spans::{EMPTY_HEADER_SPAN, HeaderSpan, RequestSpans, parse_request};
use std::str;
use tfs_calls::Refusal;

/// The content of a head.
#[derive(Clone, Copy)]
pub(crate) struct Lines<'h> {
    pub(crate) method: &'h [u8],
    pub(crate) target: &'h [u8],
    /// The length of the body that follows.
    pub(crate) size: BodyLength,
    /// True if the conversation ends after the reply.
    pub(crate) close: bool,
    /// The digest that the `Content-MD5` fields require of the body.
    pub(crate) digest: AskedDigest,
}

/// Reads a head, or returns its refusal.
pub(crate) fn read_head(head: &[u8]) -> Result<Lines<'_>, Refusal>
    ensures ok { IfOk result (λ lines. (h : RequestHead) × ReadsHead head.now h lines.size × IsToldBy lines h) }
    ensures err { IfErr result (IsHeadRefused head.now) }
{
    if count_line_feeds(head) > MAX_HEAD_LINES {
        return Err(Refusal::HeadTooLarge);
    }
    let mut fields = [EMPTY_HEADER_SPAN; MAX_FIELDS];
    let Some(spans) = parse_whole(head, &mut fields) else {
        return Err(Refusal::BadHead);
    };
    let fields = &fields[..spans.headers];
    match body_length(spans.version, head, fields) {
        Ok(size) => Ok(Lines {
            method: spans.method.of(head),
            target: spans.path.of(head),
            size,
            close: asks_to_close(spans.version, head, fields),
            digest: asked_digest(values_named(head, fields, b"content-md5")),
        }),
        Err(refusal) => Err(refusal),
    }
}

/// Returns the value of the only field of a head with a name, in any case. Returns `None` if there
/// is none or there are several, or if the bytes are no head.
pub(crate) fn only_value<'h>(head: &'h [u8], name: &[u8]) -> Option<&'h [u8]>
    ensures value { IfSome result (λ value. (h : RequestHead) × IsHeadOf head.now h
        × (values_named (lower name.now) (fields_of h) ≡ value.now ∷ [])) }
    ensures none { IfNone result (((h : RequestHead) → ¬ (IsHeadOf head.now h))
        ⊎ ((h : RequestHead) × IsHeadOf head.now h × IsNotOne (values_named (lower name.now) (fields_of h)))) }
{
    let mut fields = [EMPTY_HEADER_SPAN; MAX_FIELDS];
    let spans = parse_whole(head, &mut fields)?;
    match values_like(head, &fields[..spans.headers], name) {
        Values::One(value) => Some(value),
        Values::Absent | Values::Several => None,
    }
}

/// Parses a head. Returns `None` unless the whole of it is valid by the grammar.
fn parse_whole(head: &[u8], fields: &mut [HeaderSpan; MAX_FIELDS]) -> Option<RequestSpans>
    ensures found { IfSome result (λ spans. (h : RequestHead) × IsHeadOf head.now h
        × IsRequestAt head.now fields.new spans h × IsRequestWithin head.now fields.new spans) }
    ensures absent { IfNone result ((h : RequestHead) → ¬ (IsHeadOf head.now h)) }
{
    match parse_request(head, fields) {
        Ok(Status::Complete(spans)) if spans.len == head.len() => Some(spans),
        _ => None,
    }
}

fn count_line_feeds(head: &[u8]) -> usize
    ensures { result ≡ line_feeds head.now }
{
    head.iter().filter(|byte| **byte == b'\n').count()
}

/// The length of a body.
#[derive(Clone, Copy)]
pub(crate) enum BodyLength {
    /// There is no body.
    Absent,
    /// The body has this many bytes.
    Sized(usize),
    /// The body is chunked: its chunks give the length.
    Chunked,
}

/// Returns the length of the body by the version and the fields of a head, or the first refusal.
/// The spans of the fields are within the head.
pub(crate) fn body_length(
    minor: u8,
    head: &[u8],
    fields: &[HeaderSpan],
) -> Result<BodyLength, Refusal>
    requires { All (IsHeaderWithin (length head.now)) fields.now }
    ensures { result ≡ length_of_fields minor (map (header_bytes head.now) fields.now) }
{
    if !names_host(minor, values_named(head, fields, b"host")) {
        return Err(Refusal::NoHost);
    }
    length_told(
        minor,
        values_named(head, fields, b"content-length"),
        values_named(head, fields, b"transfer-encoding"),
    )
}

/// Returns true if there is one `Host` field, or none in version 1.0.
fn names_host(minor: u8, hosts: Values<'_>) -> bool
    ensures { (values : List (List ℕ)) → TellsValues hosts.entry values → result ≡ names_host minor values }
{
    match hosts {
        Values::Absent => minor == 0,
        Values::One(_) => true,
        Values::Several => false,
    }
}

/// Returns the length of the body by the version and the values of the `Content-Length` and
/// `Transfer-Encoding` fields.
fn length_told(minor: u8, lengths: Values<'_>, codings: Values<'_>) -> Result<BodyLength, Refusal>
    ensures { (texts others : List (List ℕ)) → TellsValues lengths.entry texts → TellsValues codings.entry others → result ≡ length_told minor texts others }
{
    match (lengths, codings) {
        (Values::Absent, Values::Absent) => Ok(BodyLength::Absent),
        (Values::Absent, Values::One(coding)) => length_of_coding(minor, coding),
        (Values::Absent, Values::Several) => Err(Refusal::TransferCoding),
        (Values::One(text), Values::Absent) => length_of_text(text),
        _ => Err(Refusal::BadLength),
    }
}

/// Returns the length of the body by the only transfer coding.
fn length_of_coding(minor: u8, coding: &[u8]) -> Result<BodyLength, Refusal>
    ensures { result ≡ length_of_coding minor coding.now }
{
    if minor == 1 && is_word(coding, b"chunked") {
        Ok(BodyLength::Chunked)
    } else {
        Err(Refusal::TransferCoding)
    }
}

/// Returns the length of the body by the text of a `Content-Length` field.
fn length_of_text(text: &[u8]) -> Result<BodyLength, Refusal>
    ensures { result ≡ length_of_text text.now }
{
    if !is_numeral(text) {
        return Err(Refusal::BadLength);
    }
    let Ok(digits) = str::from_utf8(text) else {
        return Err(Refusal::BadLength);
    };
    let Ok(length) = digits.parse::<u64>() else {
        return Err(Refusal::BodyTooLarge);
    };
    if length > MAX_BODY_BYTES as u64 {
        return Err(Refusal::BodyTooLarge);
    }
    Ok(BodyLength::Sized(length as usize))
}

fn is_numeral(text: &[u8]) -> bool
    ensures { result ≡ (nat_lt 0 (length text.now) && list_all is_ascii_digit text.now) }
{
    0 < text.len() && has_digits_only(text)
}

fn has_digits_only(text: &[u8]) -> bool
    ensures { result ≡ list_all is_ascii_digit text.now }
{
    text.iter().all(u8::is_ascii_digit)
}
