//! The head fields and the body of each reply.

ghost use Rattle.std.specs.Prelude.{◌≡◌, ◌++◌, codes, OnOk};
ghost use Rattle.http_header.specs.FieldValue.{plain_value};
ghost use Rattle.http_server.specs.Response.{IsBlank, IsResponse, fields_of};
ghost use Rattle.tfs_web.specs.Replies.{caution_fields, content_fields, head_fields, keeping_of, policy_fields, policy_text, refusal_fields, type_of};
ghost use Rattle.tfs_web.specs.Refusal.{status_of, body_of};

use crate::refusal::WebRefusal;
use bytes::Bytes;
use http::{HeaderValue, StatusCode, header};
use http_server::Response;
use std::alloc::AllocError;

/// What the body of a reply is.
#[derive(Clone, Copy, Debug, PartialEq, Eq)]
pub enum Content {
    Html,
    Styles,
    Script,
    Json,
}

/// Fills a response with a body.
pub fn reply(response: &mut Response, content: Content, body: Bytes) -> Result<(), AllocError>
    requires blank { IsBlank response.old }
    ensures ok { OnOk result (IsResponse 200 (head_fields content) body response.new) }
{
    add_head(response, content)?;
    response.body.push(body)
}

/// Fills a response with a refusal. After a refused method, it names the methods that are allowed
/// (RFC 9110, section 15.5.6).
pub fn refuse(response: &mut Response, refusal: WebRefusal) -> Result<(), AllocError>
    requires blank { IsBlank response.old }
    ensures ok { OnOk result (IsResponse (status_of refusal) (refusal_fields refusal) (body_of refusal) response.new) }
{
    response.status = status_code(refusal);
    add_head(response, Content::Json)?;
    if refusal == WebRefusal::MethodNotAllowed {
        response.add_header(header::ALLOW, HeaderValue::from_static("GET, HEAD"))?;
    }
    response
        .body
        .push(Bytes::from_static(refusal.body().as_bytes()))
}

/// Returns the status of a refusal.
fn status_code(refusal: WebRefusal) -> StatusCode
    ensures { result ≡ status_of refusal }
{
    match refusal {
        WebRefusal::BadQuery => StatusCode::BAD_REQUEST,
        WebRefusal::NoUser => StatusCode::FORBIDDEN,
        WebRefusal::NoRoute
        | WebRefusal::NoName
        | WebRefusal::NoState
        | WebRefusal::NoPosition
        | WebRefusal::UnknownAddress => StatusCode::NOT_FOUND,
        WebRefusal::MethodNotAllowed => StatusCode::METHOD_NOT_ALLOWED,
        WebRefusal::OtherHost => StatusCode::MISDIRECTED_REQUEST,
        WebRefusal::NoAccessFile | WebRefusal::Unreadable => StatusCode::SERVICE_UNAVAILABLE,
    }
}

/// Adds the fields of a head.
fn add_head(response: &mut Response, content: Content) -> Result<(), AllocError>
    ensures fields { OnOk result (fields_of response.new ≡ fields_of response.old ++ head_fields content) }
    ensures status { response.new.status ≡ response.old.status }
    ensures body { response.new.body ≡ response.old.body }
{
    add_content(response, content)?;
    add_policy(response)
}

/// Adds the fields that say what the browser may do with a reply (Content Security Policy, level
/// 3).
fn add_policy(response: &mut Response) -> Result<(), AllocError>
    ensures fields { OnOk result (fields_of response.new ≡ fields_of response.old ++ policy_fields) }
    ensures status { response.new.status ≡ response.old.status }
    ensures body { response.new.body ≡ response.old.body }
{
    response.add_header(header::CONTENT_SECURITY_POLICY, policy())?;
    add_caution(response)
}

/// Adds the fields that keep the browser from guessing a type and from telling other sites the
/// address.
fn add_caution(response: &mut Response) -> Result<(), AllocError>
    ensures fields { OnOk result (fields_of response.new ≡ fields_of response.old ++ caution_fields) }
    ensures status { response.new.status ≡ response.old.status }
    ensures body { response.new.body ≡ response.old.body }
{
    response.add_header(header::X_CONTENT_TYPE_OPTIONS, no_guess())?;
    response.add_header(header::REFERRER_POLICY, no_referrer())
}

/// Returns the value that forbids to guess a type.
fn no_guess() -> HeaderValue
    ensures { result ≡ plain_value (codes "nosniff") }
{
    HeaderValue::from_static("nosniff")
}

/// Returns the value with which a browser sends no address of the page to others.
fn no_referrer() -> HeaderValue
    ensures { result ≡ plain_value (codes "no-referrer") }
{
    HeaderValue::from_static("no-referrer")
}

/// Returns the policy: scripts, styles and answers of this server alone.
#[tactic(auto, unfolding(crate::specs::Replies::policy_text))]
fn policy() -> HeaderValue
    ensures { result ≡ plain_value policy_text }
{
    HeaderValue::from_static(
        "default-src 'none'; script-src 'self'; style-src 'self'; connect-src 'self'; img-src 'self' data:; base-uri 'none'; form-action 'none'; frame-ancestors 'none'",
    )
}

/// Adds the fields for the body: its type, and how long it may be kept.
fn add_content(response: &mut Response, content: Content) -> Result<(), AllocError>
    ensures fields { OnOk result (fields_of response.new ≡ fields_of response.old ++ content_fields content) }
    ensures status { response.new.status ≡ response.old.status }
    ensures body { response.new.body ≡ response.old.body }
{
    response.add_header(header::CONTENT_TYPE, content_type(content))?;
    response.add_header(header::CACHE_CONTROL, keeping(content))
}

/// Returns the type of a body (RFC 9110, section 8.3).
fn content_type(content: Content) -> HeaderValue
    ensures { result ≡ plain_value (type_of content) }
{
    match content {
        Content::Html => HeaderValue::from_static("text/html; charset=utf-8"),
        Content::Styles => HeaderValue::from_static("text/css; charset=utf-8"),
        Content::Script => HeaderValue::from_static("text/javascript; charset=utf-8"),
        Content::Json => HeaderValue::from_static("application/json"),
    }
}

/// Returns how long a body may be kept (RFC 9111, section 5.2.2): an answer not at all, a file of
/// the page until it is asked for again.
fn keeping(content: Content) -> HeaderValue
    ensures { result ≡ plain_value (keeping_of content) }
{
    match content {
        Content::Html | Content::Styles | Content::Script => HeaderValue::from_static("no-cache"),
        Content::Json => HeaderValue::from_static("no-store"),
    }
}
