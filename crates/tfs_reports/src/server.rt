//! Reads a state from a running server.

use crate::acts::name_of;
use crate::fault::{ReportEnd, ReportFault, ReportPlace};
use httparse::Status;
use httparse::spans::{EMPTY_HEADER_SPAN, HeaderSpan, Span, parse_response};
use std::alloc::{AllocError, Global};
use std::io::{self, Read, Write};
use std::net::TcpStream;
use std::os::unix::net::UnixStream;
use std::str;
use std::time::Duration;
use tfs_rules::Name;
use tfs_state::MAX_STATE_BYTES;

/// Seconds that a read or a write may wait.
const MAX_WAIT_SECONDS: u64 = 60;

/// The maximum length of a reply: a state, and a head of 16 KiB.
const MAX_REPLY_BYTES: u64 = MAX_STATE_BYTES as u64 + 16_384;

/// The maximum number of fields in a reply's head.
const MAX_FIELDS: usize = 64;

/// The address of a server.
#[derive(Clone, Copy)]
enum Place<'u> {
    /// A host, with its port if it isn't 80, and what comes before `/state` in a target.
    Host(&'u str, &'u str),
    /// The path of a unix socket.
    Local(&'u str),
}

/// Returns the newest state of a workspace, from the server at an address.
pub(crate) fn state_from(rt: &HostRuntime, url: &str, name: &str) -> Result<Vec<u8>, ReportEnd> {
    let name = name_of(rt.alloc(), name)?;
    let Some(place) = place_in(url) else {
        return Err(ReportEnd::at(ReportPlace::Url, ReportFault::BadUrl));
    };
    match ask(rt, place, &name) {
        Ok(reply) => state_in(rt.alloc(), reply.as_slice()),
        Err(error) => Err(ReportEnd::by_system(ReportPlace::Url, &error)),
    }
}

/// Returns the place in an address: `http://HOST[:PORT][/PREFIX]` or `unix:PATH`.
fn place_in(url: &str) -> Option<Place<'_>> {
    if let Some(path) = url.strip_prefix("unix:") {
        return Some(Place::Local(path));
    }
    let rest = url.strip_prefix("http://")?.trim_end_matches('/');
    let (host, prefix) = match rest.find('/') {
        Some(at) => rest.split_at(at),
        None => (rest, ""),
    };
    if host.is_empty() || !is_visible(rest) {
        return None;
    }
    Some(Place::Host(host, prefix))
}

/// Returns true if a text has only visible ASCII characters.
fn is_visible(text: &str) -> bool {
    text.as_bytes().iter().all(u8::is_ascii_graphic)
}

/// Asks for the state of a workspace. Returns all bytes of the reply.
fn ask(rt: &HostRuntime, place: Place<'_>, name: &Name) -> io::Result<Vec<u8>> {
    let wait = Some(Duration::from_secs(MAX_WAIT_SECONDS));
    match place {
        Place::Host(host, prefix) => {
            let stream = TcpStream::connect(rt, address_of(rt.alloc(), host)?.as_str())?;
            stream.set_read_timeout(wait)?;
            stream.set_write_timeout(wait)?;
            exchange(rt.alloc(), stream, request(rt.alloc(), host, prefix, name)?)
        }
        Place::Local(path) => {
            let stream = UnixStream::connect(rt, path)?;
            stream.set_read_timeout(wait)?;
            stream.set_write_timeout(wait)?;
            exchange(
                rt.alloc(),
                stream,
                request(rt.alloc(), "localhost", "", name)?,
            )
        }
    }
}

/// Returns a host with its port: 80 if it has none.
fn address_of(alloc: Global, host: &str) -> Result<String, AllocError> {
    match host.rsplit_once(':') {
        Some((_, port)) if port.parse::<u16>().is_ok() => String::from_str(alloc, host),
        _ => format!(in alloc; "{host}:80"),
    }
}

/// Returns the request for the state of a workspace. It is one of HTTP/1.0, whose reply isn't
/// chunked.
fn request(alloc: Global, host: &str, prefix: &str, name: &Name) -> Result<String, AllocError> {
    let name = name.text();
    format!(in alloc; "GET {prefix}/state/{name} HTTP/1.0\r\nHost: {host}\r\n\r\n")
}

/// Sends a request, and returns all bytes of the reply.
fn exchange<S: Read + Write + Drop>(
    alloc: Global,
    stream: S,
    request: String,
) -> io::Result<Vec<u8>> {
    let mut stream = stream;
    stream.write_all(request.as_bytes())?;
    let mut reply = Vec::new(alloc);
    stream.take(MAX_REPLY_BYTES + 1).read_to_end(&mut reply)?;
    Ok(reply)
}

/// Returns the state in a reply.
fn state_in(alloc: Global, reply: &[u8]) -> Result<Vec<u8>, ReportEnd> {
    let mut fields = [EMPTY_HEADER_SPAN; MAX_FIELDS];
    let Ok(Status::Complete(head)) = parse_response(reply, &mut fields) else {
        return Err(ReportEnd::at(ReportPlace::Url, ReportFault::NoReply));
    };
    match head.code {
        200 => {}
        404 => return Err(ReportEnd::at(ReportPlace::Name, ReportFault::NoState)),
        status => return Err(ReportEnd::at(ReportPlace::Url, ReportFault::Status(status))),
    }
    if MAX_REPLY_BYTES < reply.len() as u64 {
        return Err(ReportEnd::at(ReportPlace::State, ReportFault::LargeState));
    }
    let (_, body) = reply.split_at(head.len);
    if !is_whole(reply, &fields[..head.headers], body.len()) {
        return Err(ReportEnd::at(ReportPlace::Url, ReportFault::NoReply));
    }
    Ok(Vec::from_slice(alloc, body)?)
}

/// Returns true if a body of this length is complete: no `Content-Length` differs.
fn is_whole(reply: &[u8], fields: &[HeaderSpan], length: usize) -> bool {
    for field in fields {
        let is_length = bytes_at(reply, field.name).eq_ignore_ascii_case(b"content-length");
        if is_length && number_in(bytes_at(reply, field.value)) != Some(length) {
            return false;
        }
    }
    true
}

/// Returns the bytes of a span.
fn bytes_at(reply: &[u8], span: Span) -> &[u8] {
    reply.get(span.start..span.end).unwrap_or(&[])
}

/// Returns the number in the value of a field.
fn number_in(value: &[u8]) -> Option<usize> {
    str::from_utf8(value).ok()?.parse().ok()
}
