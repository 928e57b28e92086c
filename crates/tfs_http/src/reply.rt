//! The texts of replies (RFC 9112, section 4).

ghost use Rattle.std.specs.Prelude.{◌≡◌, ℕ, List, [], ◌++◌, length, take, vec_len, OnOk, OnErr, IfOk};
ghost use Rattle.std.specs.Cow.{cow_slice_items};
ghost use Rattle.tfs_calls.specs.Refusal.{refusal_value};
ghost use Rattle.tfs_calls.specs.Reply.{reply_value};
ghost use Rattle.tfs_http.specs.ReplyText.{phrase_of, status_of, status_line, allow_line, close_line, type_line, head_text, body_of, refusal_body, name_body, reply_text, IsNamed, IsPrinted};

use crate::answer::impact_body;
use crate::impact_body::ImpactBody;
use itoa::Buffer;
use std::alloc::{AllocError, Global};
use std::borrow::CowSlice;
use tfs_calls::{Methods, Refusal, Reply};
use tfs_framing::Form;

/// The status of a reply that is no refusal (RFC 9110, section 15.3.1).
const OK: u16 = 200;

/// Room for JSON with the name of a refusal.
const NAME_BODY_BYTES: usize = 32;

/// Appends the text of a reply: its head, and its body unless the form is bare. If memory is
/// refused, appends nothing.
pub fn write_reply(
    alloc: Global,
    reply: &Reply,
    form: Form,
    out: &mut Vec<u8>,
) -> Result<(), AllocError>
    ensures ok { OnOk result (out.new.items ≡ out.old.items ++ reply_text (reply_value reply.now) form) }
    ensures err { OnErr result (out.new.items ≡ out.old.items) }
{
    let start = out.len();
    let body = body_of(alloc, reply)?;
    write_head(reply, form, body.as_slice(), out)?;
    if form.bare {
        return Ok(());
    }
    if let Err(error) = out.extend_from_slice(body.as_slice()) {
        out.truncate(start);
        return Err(error);
    }
    Ok(())
}

/// Returns the body of a reply. The bytes of a state, and the holder's information in a refusal by
/// a lock, are borrowed and unchanged; other bodies may need memory.
pub fn body_of<'r>(alloc: Global, reply: &'r Reply) -> Result<CowSlice<'r, u8>, AllocError>
    ensures ok { IfOk result (λ body. cow_slice_items body ≡ body_of (reply_value reply.now)) }
    ensures memory { OnErr result (IsPrinted (reply_value reply.now)) }
{
    match reply {
        Reply::Done(_) => Ok(CowSlice::Borrowed(b"")),
        Reply::State(doc) => Ok(CowSlice::Borrowed(doc.bytes())),
        Reply::Impact(answer) => Ok(CowSlice::Owned(impact_body(alloc, answer)?.into_bytes())),
        Reply::Refused(refusal) => refusal_body(alloc, refusal),
    }
}

/// Returns the body of a refusal.
fn refusal_body<'r>(alloc: Global, refusal: &'r Refusal) -> Result<CowSlice<'r, u8>, AllocError>
    ensures ok { IfOk result (λ body. cow_slice_items body ≡ refusal_body (refusal_value refusal.now)) }
    ensures memory { OnErr result (IsNamed (refusal_value refusal.now)) }
{
    if let Refusal::Locked(info) = refusal {
        return Ok(CowSlice::Borrowed(info.bytes()));
    }
    Ok(CowSlice::Owned(name_body(alloc, refusal)?))
}

/// Returns JSON with the name of a refusal.
fn name_body(alloc: Global, refusal: &Refusal) -> Result<Vec<u8>, AllocError>
    ensures { IfOk result (λ body. body.items ≡ name_body (refusal_value refusal.now)) }
{
    let mut body = Vec::with_capacity(alloc, NAME_BODY_BYTES)?;
    body.extend_from_slice(b"{\"error\":\"")?;
    body.extend_from_slice(refusal.name().as_bytes())?;
    body.extend_from_slice(b"\"}")?;
    Ok(body)
}

/// Appends the head of a reply with this form and body. If memory is refused, appends nothing.
pub fn write_head(
    reply: &Reply,
    form: Form,
    body: &[u8],
    out: &mut Vec<u8>,
) -> Result<(), AllocError>
    ensures ok { OnOk result (let value = reply_value reply.now in
        out.new.items ≡ out.old.items ++ head_text (status_of value) (allow_line value) form body.now) }
    ensures err { OnErr result (out.new.items ≡ out.old.items) }
{
    let len = out.len();
    let added = push_head(
        status_of(reply),
        allow_line(reply),
        form,
        body.len() as u128,
        out,
    );
    if added.is_err() {
        out.truncate(len);
    }
    added
}

/// Appends the head of an impact's reply in this form. `told` has the first bytes of its body, and
/// `left` the others. If memory is refused, appends nothing.
pub fn write_impact_head(
    told: &[u8],
    left: &ImpactBody<'_>,
    form: Form,
    out: &mut Vec<u8>,
) -> Result<(), AllocError>
    ensures ok { OnOk result (out.new.items ≡ out.old.items ++ head_text 200 [] form (told.now ++ left.now)) }
    ensures err { OnErr result (out.new.items ≡ out.old.items) }
{
    let len = out.len();
    let added = push_head(OK, "", form, body_len(told, left), out);
    if added.is_err() {
        out.truncate(len);
    }
    added
}

/// Returns the length of a body that consists of `told` and `left`.
fn body_len(told: &[u8], left: &ImpactBody<'_>) -> u128
    ensures { result ≡ length (told.now ++ left.now) }
{
    told.len() as u128 + left.len()
}

/// Appends the lines of a head with this status, `Allow` line, form and length of the body. If
/// memory is refused, some of the bytes may remain appended.
fn push_head(
    status: u16,
    allow: &str,
    form: Form,
    len: u128,
    out: &mut Vec<u8>,
) -> Result<(), AllocError>
    ensures ok { OnOk result ((body : List ℕ) → length body ≡ len
        → out.new.items ≡ out.old.items ++ head_text status allow.now form body) }
    ensures err { OnErr result (take (vec_len out.old) out.new.items ≡ out.old.items) }
{
    let mut digits = Buffer::new();
    push_status_line(status, out)?;
    push_three(allow, close_line(form), type_line(len), out)?;
    push_three("Content-Length: ", digits.format(len), "\r\n\r\n", out)?;
    Ok(())
}

/// Appends the version, the status and its phrase. If memory is refused, some of the bytes may
/// remain appended.
fn push_status_line(status: u16, out: &mut Vec<u8>) -> Result<(), AllocError>
    ensures ok { OnOk result (out.new.items ≡ out.old.items ++ status_line status) }
    ensures err { OnErr result (take (vec_len out.old) out.new.items ≡ out.old.items) }
{
    let mut digits = Buffer::new();
    push_three("HTTP/1.1", " ", digits.format(status), out)?;
    push_three(" ", phrase(status), "\r\n", out)?;
    Ok(())
}

/// Appends three texts in order. If memory is refused, some of the bytes may remain appended.
fn push_three(first: &str, second: &str, third: &str, out: &mut Vec<u8>) -> Result<(), AllocError>
    ensures ok { OnOk result (out.new.items ≡ out.old.items ++ (first.now ++ (second.now ++ third.now))) }
    ensures err { OnErr result (take (vec_len out.old) out.new.items ≡ out.old.items) }
{
    out.extend_from_slice(first.as_bytes())?;
    out.extend_from_slice(second.as_bytes())?;
    out.extend_from_slice(third.as_bytes())?;
    Ok(())
}

/// Returns the status of a reply.
fn status_of(reply: &Reply) -> u16
    ensures { result ≡ status_of (reply_value reply.now) }
{
    match reply {
        Reply::Done(_) | Reply::State(_) | Reply::Impact(_) => OK,
        Reply::Refused(refusal) => refusal.status(),
    }
}

/// Returns the phrase of a status, or an empty text for a status that no reply has.
fn phrase(status: u16) -> &'static str
    ensures { result.now ≡ phrase_of status }
{
    match status {
        200 => "OK",
        400 => "Bad Request",
        404 => "Not Found",
        405 => "Method Not Allowed",
        409 => "Conflict",
        413 => "Content Too Large",
        423 => "Locked",
        431 => "Request Header Fields Too Large",
        500 => "Internal Server Error",
        501 => "Not Implemented",
        503 => "Service Unavailable",
        507 => "Insufficient Storage",
        _ => "",
    }
}

/// Returns the `Allow` line of a refused method, with the methods of the route; empty for other
/// replies.
fn allow_line(reply: &Reply) -> &'static str
    ensures { result.now ≡ allow_line (reply_value reply.now) }
{
    if let Reply::Refused(Refusal::MethodNotAllowed(methods)) = reply {
        return match methods {
            Methods::State => "Allow: DELETE, GET, LOCK, POST, UNLOCK\r\n",
            Methods::Impact => "Allow: GET\r\n",
        };
    }
    ""
}

/// Returns the line that announces the end of the conversation, or an empty text.
fn close_line(form: Form) -> &'static str
    ensures { result.now ≡ close_line form }
{
    if form.close {
        "Connection: close\r\n"
    } else {
        ""
    }
}

/// Returns the `Content-Type` line for a body of this length, or an empty text without a body.
fn type_line(len: u128) -> &'static str
    ensures { (body : List ℕ) → length body ≡ len → result.now ≡ type_line body }
{
    if len == 0 {
        ""
    } else {
        "Content-Type: application/json\r\n"
    }
}
