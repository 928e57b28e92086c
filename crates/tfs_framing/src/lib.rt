//! Framing of HTTP/1.1 requests (RFC 9112): finds the requests in the bytes of a connection, and
//! reads their heads and bodies. A body has a stated length, or is chunked.
#![tactic(auto)]

mod body;
mod chunks;
mod decoder;
mod fields;
mod framing;
mod head;
mod laws;
mod limits;
mod lines;
mod over;
mod progress;
mod request;

pub use decoder::{RequestDecoder, take};
pub use framing::{Received, Take};
pub use laws::{each_field_is_one_of_http_header, what_bytes_begin_with_is_one_thing_and_stays};
pub use limits::{
    MAX_BODY_BYTES, MAX_CHUNK_LINE_BYTES, MAX_CHUNKS, MAX_FIELDS, MAX_HEAD_BYTES, MAX_HEAD_LINES,
    MAX_TRAILER_BYTES,
};
pub use request::{Form, Request};
