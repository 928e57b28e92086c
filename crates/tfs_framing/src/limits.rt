//! The limits of a request.

/// The maximum length of a head in bytes, including the empty lines that are skipped before it.
pub const MAX_HEAD_BYTES: usize = 16_384;

/// The maximum number of line feeds in a head: a request line, 64 fields, and the empty line.
pub const MAX_HEAD_LINES: usize = 66;

/// The maximum number of fields in a head.
pub const MAX_FIELDS: usize = 64;

/// The maximum length of a body in bytes: 16 MiB.
pub const MAX_BODY_BYTES: usize = 16_777_216;

/// The maximum number of chunks in a body.
pub const MAX_CHUNKS: usize = 65_536;

/// The maximum length of a chunk line in bytes, including its line end.
pub const MAX_CHUNK_LINE_BYTES: usize = 1_024;

/// The maximum length of a trailer in bytes, including its empty line.
pub const MAX_TRAILER_BYTES: usize = 16_384;
