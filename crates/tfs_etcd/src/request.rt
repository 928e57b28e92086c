//! The bodies of requests to etcd's JSON gateway (etcd 3.4, API reference).

ghost use Rattle.std.specs.Prelude.{◌≡◌, string_bytes, IfOk};
ghost use Rattle.tfs_etcd.specs.Requests.{put_text, range_text, read_text, grant_text, lease_text};

use base64::engine::general_purpose::STANDARD;
use std::alloc::{AllocError, Global};

/// Returns the body of `/v3/kv/range`: up to `limit` keys in order, from a key to before another
/// one. A limit of 0 asks for all.
pub fn range_request(
    alloc: Global,
    key: &[u8],
    end: &[u8],
    limit: u64,
) -> Result<String, AllocError>
    ensures text { IfOk result (λ text. string_bytes text ≡ range_text key.now end.now limit) }
{
    let key = STANDARD.encode(alloc, key)?;
    let end = STANDARD.encode(alloc, end)?;
    format!(in alloc; "{{\"key\":\"{key}\",\"range_end\":\"{end}\",\"limit\":\"{limit}\"}}")
}

/// Returns the body of `/v3/kv/range` for one key.
pub fn read_request(alloc: Global, key: &[u8]) -> Result<String, AllocError>
    ensures text { IfOk result (λ text. string_bytes text ≡ read_text key.now) }
{
    let key = STANDARD.encode(alloc, key)?;
    format!(in alloc; "{{\"key\":\"{key}\"}}")
}

/// Returns the body of `/v3/kv/put`.
pub fn put_request(alloc: Global, key: &[u8], value: &[u8]) -> Result<String, AllocError>
    ensures text { IfOk result (λ text. string_bytes text ≡ put_text key.now value.now) }
{
    let key = STANDARD.encode(alloc, key)?;
    let value = STANDARD.encode(alloc, value)?;
    format!(in alloc; "{{\"key\":\"{key}\",\"value\":\"{value}\"}}")
}

/// Returns the body of `/v3/lease/grant`: a lease of this many seconds.
pub fn grant_request(alloc: Global, seconds: u64) -> Result<String, AllocError>
    ensures text { IfOk result (λ text. string_bytes text ≡ grant_text seconds) }
{
    format!(in alloc; "{{\"TTL\":\"{seconds}\"}}")
}

/// Returns the body of `/v3/lease/keepalive` and `/v3/lease/revoke`.
pub fn lease_request(alloc: Global, lease: u64) -> Result<String, AllocError>
    ensures text { IfOk result (λ text. string_bytes text ≡ lease_text lease) }
{
    format!(in alloc; "{{\"ID\":\"{lease}\"}}")
}
