//! Texts of requests and replies, written by hand from RFC 9112.

/// A state, of 41 bytes.
pub(crate) const S1: &str = "{\"version\":4, \"serial\":1 ,\"lineage\":\"L1\"}";

/// The reply to an accepted change, of 38 bytes.
pub(crate) const DONE: &str = "HTTP/1.1 200 OK\r\nContent-Length: 0\r\n\r\n";

/// A push of S1 to `a`, of 96 bytes, and a read of `a`, of 34.
pub(crate) const PUSH_AND_READ: &str =
    "POST /state/a HTTP/1.1\r\nHost: h\r\nContent-Length: 41\r\n\r\n\
{\"version\":4, \"serial\":1 ,\"lineage\":\"L1\"}\
GET /state/a HTTP/1.1\r\nHost: h\r\n\r\n";

/// The replies to both, of 150 bytes.
pub(crate) const REPLIES: &str = "HTTP/1.1 200 OK\r\nContent-Length: 0\r\n\r\n\
HTTP/1.1 200 OK\r\nContent-Type: application/json\r\nContent-Length: 41\r\n\r\n\
{\"version\":4, \"serial\":1 ,\"lineage\":\"L1\"}";
