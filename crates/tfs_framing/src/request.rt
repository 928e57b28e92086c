//! Requests of clients, and the form of their replies.

ghost use Rattle.std.specs.Prelude.{◌≡◌, ℕ, List, IfOk, false, true};
ghost use Rattle.httparse.specs.Grammar.{RequestHead};
ghost use Rattle.tfs_framing.specs.Lines.{IsToldBy};
ghost use Rattle.tfs_framing.specs.Request.{RequestValue, completed, request_of};

use crate::fields::{AskedDigest, has_asked};
use crate::lines::{Lines, only_value};
use std::alloc::{AllocError, Global};
use std::marker::Model;
use tfs_calls::Bytes;

/// A request: its method, target and body as they arrived; whether the conversation ends after the
/// reply; and whether the body has the digest that the head states, if it states one.
#[derive(Drop)]
pub struct Request {
    pub(crate) method: Vec<u8>,
    pub(crate) target: Vec<u8>,
    pub(crate) body: Vec<u8>,
    pub(crate) close: bool,
    pub(crate) intact: bool,
    /// The whole head; empty unless the decoder keeps heads.
    pub(crate) head: Vec<u8>,
}

impl Model for Request {
    ghost use Rattle.tfs_framing.specs.Request.{RequestValue};

    ghost Value = { RequestValue };

    ghost view = { λ r. record { method = r.method.items; target = r.target.items; body = r.body.items; close = r.close; intact = r.intact } };
}

impl Request {
    ghost use Rattle.tfs_framing.specs.Form.{form_of};

    /// Creates a request from its parts. The conversation continues after its reply, and its head
    /// states no digest.
    pub fn new(
        alloc: Global,
        method: &[u8],
        target: &[u8],
        body: Vec<u8>,
    ) -> Result<Request, AllocError>
        ensures value { IfOk result (λ r. r ≡ record { method = method.now; target = target.now; body = body.items; close = false; intact = true }) }
    {
        Ok(Request {
            method: Vec::from_slice(alloc, method)?,
            target: Vec::from_slice(alloc, target)?,
            body,
            close: false,
            intact: true,
            head: Vec::new(alloc),
        })
    }

    /// Returns the method exactly as it arrived (RFC 9110, section 9.1).
    pub fn method(&self) -> &[u8]
        ensures value { result.now ≡ self.now.method }
    {
        self.method.as_slice()
    }

    /// Returns the target exactly as it arrived (RFC 9112, section 3.2).
    pub fn target(&self) -> &[u8]
        ensures value { result.now ≡ self.now.target }
    {
        self.target.as_slice()
    }

    /// Returns the body, which is empty if the request has none.
    pub fn body(&self) -> &[u8]
        ensures value { result.now ≡ self.now.body }
    {
        self.body.as_slice()
    }

    /// Returns the body without allocating memory.
    pub fn into_body(self) -> Bytes
        ensures value { result ≡ self.body }
    {
        Bytes::new(self.body)
    }

    /// Returns true if the body has the digest that the head states, or if the head states none.
    pub fn is_intact(&self) -> bool
        ensures value { result ≡ self.now.intact }
    {
        self.intact
    }

    /// Returns the value of the only field with a name, in any case. Returns `None` if there is none
    /// or there are several, or if the decoder doesn't keep heads.
    pub fn field(&self, name: &[u8]) -> Option<&[u8]> {
        only_value(self.head.as_slice(), name)
    }

    /// Returns the form of the reply to the request.
    pub fn form(&self) -> Form
        ensures value { result ≡ form_of self.now }
    {
        Form {
            close: self.close,
            bare: self.method() == b"HEAD".as_slice(),
        }
    }
}

/// A request without its body: a copy of what its head says.
#[derive(Drop)]
pub(crate) struct OpenRequest {
    pub(crate) method: Vec<u8>,
    pub(crate) target: Vec<u8>,
    pub(crate) close: bool,
    pub(crate) digest: AskedDigest,
    pub(crate) head: Vec<u8>,
}

impl OpenRequest {
    /// Copies the content of a head, and these bytes of it for `Request::field`.
    pub(crate) fn new(
        alloc: Global,
        lines: &Lines<'_>,
        kept: &[u8],
    ) -> Result<OpenRequest, AllocError>
        ensures { (h : RequestHead) → IsToldBy lines.now h
            → IfOk result (λ o. (body : List ℕ) → completed o body ≡ request_of h body) }
    {
        Ok(OpenRequest {
            method: Vec::from_slice(alloc, lines.method)?,
            target: Vec::from_slice(alloc, lines.target)?,
            close: lines.close,
            digest: lines.digest,
            head: Vec::from_slice(alloc, kept)?,
        })
    }

    /// Returns the request with its body. The vector is moved into the request, not copied.
    pub(crate) fn complete(self, body: Vec<u8>) -> Request
        ensures { result ≡ completed self body.items }
    {
        let intact = has_asked(&self.digest, body.as_slice());
        Request {
            method: self.method,
            target: self.target,
            body,
            close: self.close,
            intact,
            head: self.head,
        }
    }
}

/// The form of a reply, which the request determines.
#[derive(Clone, Copy)]
pub struct Form {
    /// The conversation ends after the reply (RFC 9112, section 9.6).
    pub close: bool,
    /// The reply is sent without its body (RFC 9110, section 9.3.2).
    pub bare: bool,
}
