//! The workspace that an address of a state names.

ghost use Rattle.std.specs.Prelude.{◌≡◌, IfOk, option_and_then, option_copied, option_map};
ghost use Rattle.std.specs.Path.{rsplit_once};
ghost use Rattle.percent_encoding.specs.Percent as percent;
ghost use Rattle.tfs_across.specs.Address.{after_slash, bare, last_segment, name_in, path_of};
ghost use Rattle.tfs_across.specs.Address.{state_segment, text_after, text_before};

use percent_encoding::percent_decode_str;
use std::alloc::{AllocError, Global};

/// Returns the name in an address of a state, percent-decoded. Fails only if memory is refused.
pub(crate) fn name_in(alloc: Global, address: &str) -> Result<Option<Vec<u8>>, AllocError>
    ensures { IfOk result (λ name. option_map (λ n. n.items) name ≡ name_in address.now) }
{
    match name_part(address) {
        Some(part) => Ok(Some(decode(alloc, part)?)),
        None => Ok(None),
    }
}

/// Decodes a part of an address.
fn decode(alloc: Global, part: &str) -> Result<Vec<u8>, AllocError>
    ensures { IfOk result (λ name. name.items ≡ percent.percent_decode part.now) }
{
    let mut name = Vec::with_capacity(alloc, part.len())?;
    percent_decode_str(part).append_to(&mut name)?;
    Ok(name)
}

/// Returns the name in an address, as it is written there.
fn name_part(address: &str) -> Option<&str>
    ensures { option_copied result ≡ option_and_then state_segment
        (option_and_then (rsplit_once 47) (path_of address.now)) }
{
    let (front, part) = last_cut(path_of(address)?)?;
    if last_segment(front) == "state" {
        Some(part)
    } else {
        None
    }
}

/// Returns the last segment of a path.
fn last_segment(path: &str) -> &str
    ensures { result.now ≡ last_segment path.now }
{
    match last_cut(path) {
        Some((_, last)) => last,
        None => path,
    }
}

/// Returns the parts of a path before and after its last slash.
fn last_cut(path: &str) -> Option<(&str, &str)>
    ensures { option_map (λ parts. (parts.0.now, parts.1.now)) result ≡ rsplit_once 47 path.now }
{
    path.rsplit_once('/')
}

/// Returns the path of an address without its first slash.
fn path_of(address: &str) -> Option<&str>
    ensures { option_copied result ≡ path_of address.now }
{
    after_first_slash(after_slash(after_slash(after_colon(bare(address))?)?)?)
}

/// Returns an address without its query and fragment.
fn bare(address: &str) -> &str
    ensures { result.now ≡ bare address.now }
{
    before_query(before_fragment(address))
}

/// Returns the text before the first `#`, or all of it.
fn before_fragment(address: &str) -> &str
    ensures { result.now ≡ text_before 35 address.now }
{
    match address.split_once('#') {
        Some((front, _)) => front,
        None => address,
    }
}

/// Returns the text before the first `?`, or all of it.
fn before_query(address: &str) -> &str
    ensures { result.now ≡ text_before 63 address.now }
{
    match address.split_once('?') {
        Some((front, _)) => front,
        None => address,
    }
}

/// Returns the text after the first colon.
fn after_colon(address: &str) -> Option<&str>
    ensures { option_copied result ≡ text_after 58 address.now }
{
    match address.split_once(':') {
        Some((_, rest)) => Some(rest),
        None => None,
    }
}

/// Returns the text after the first slash.
fn after_first_slash(text: &str) -> Option<&str>
    ensures { option_copied result ≡ text_after 47 text.now }
{
    match text.split_once('/') {
        Some((_, rest)) => Some(rest),
        None => None,
    }
}

/// Returns the text after a slash that it begins with.
fn after_slash(text: &str) -> Option<&str>
    ensures { option_copied result ≡ after_slash text.now }
{
    text.strip_prefix('/')
}
