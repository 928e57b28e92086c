//! Answers to requests for the numbers of a server.

ghost use Rattle.std.specs.Prelude.{◌≡◌, IsTrue};
ghost use Rattle.http_header.specs.FieldName.{is_header_name};
ghost use Rattle.http_header.specs.FieldValue.{is_visible_text};

use crate::memory::add_memory;
use crate::meter::Meter;
use bytes::{BufMut, Bytes};
use http::header::{HeaderName, HeaderValue};
use http::{Request, StatusCode};
use http_server::{Response, Service};
use std::alloc::{AllocError, Global};
use std::sync::Wait;

/// The path of the numbers.
const PATH: &str = "/metrics";

/// Answers GET and HEAD of `/metrics` with the numbers of a meter and
/// the memory of the process. Any other path is not found
/// (status 404), and any other method isn't allowed (405; RFC 9110, section 15.5).
#[derive(Drop)]
pub struct Scrape<'m, W: Wait> {
    pub wait: &'m W,
    pub host: &'m HostRuntime,
    pub alloc: Global,
    pub meter: &'m Meter,
}

impl<'m, W: Wait> Service for Scrape<'m, W> {
    ghost use Rattle.std.specs.Prelude.{◌≡◌};
    ghost use Rattle.tfs_metrics.specs.Scrape.{status_for};

    ghost answers = { λ _ request response _. response.status ≡ status_for request };

    fn call(
        &mut self,
        request: &Request<Bytes>,
        response: &mut Response,
    ) -> Result<(), AllocError> {
        add(response, "connection", "close")?;
        if request.uri().path() != PATH {
            response.status = StatusCode::NOT_FOUND;
            return Ok(());
        }
        let method = request.method().as_str();
        if method != "GET" && method != "HEAD" {
            response.status = StatusCode::METHOD_NOT_ALLOWED;
            return add(response, "allow", "GET, HEAD");
        }
        let mut text = self.meter.text(self.wait, self.alloc)?;
        add_memory(self.host, self.alloc, &mut text)?;
        response.body.put_slice(text.as_bytes())?;
        add(response, "content-type", "text/plain; version=0.0.4")
    }
}

/// Adds a field to a response.
fn add(response: &mut Response, name: &'static str, value: &'static str) -> Result<(), AllocError>
    requires name { IsTrue (is_header_name name.now) }
    requires value { IsTrue (is_visible_text value.now) }
    ensures status { response.new.status ≡ response.old.status }
{
    response.add_header(
        HeaderName::from_static(name),
        HeaderValue::from_static(value),
    )
}
