//! The query of a request's target.

ghost use Rattle.std.specs.Prelude.{◌≡◌, ◌∷◌, [], ◌++◌, ℕ, List, IfOk, Some, None, true, false, Ok, codes, option_map, string_bytes};
ghost use Rattle.std.specs.Cow.{cow_str_bytes};
ghost use Rattle.std.specs.Str.{bytes_eq};
ghost use Rattle.form_urlencoded.specs.Form as form;
ghost use Rattle.form_urlencoded.specs.Parse.{raw_pairs_left};
ghost use Rattle.tfs_http.specs.Query.{query_of, decoded, first_value, identifier_parameter, all_values, texts_parameter};

use form_urlencoded::{RawPairs, decode, raw_pairs};
use std::alloc::{AllocError, Global};
use tfs_calls::{Text, Texts};

/// Returns the value of the first parameter `ID` of a target, decoded as form data (URL Standard,
/// section 5).
pub(crate) fn identifier_parameter(
    alloc: Global,
    target: &str,
) -> Result<Option<String>, AllocError>
    ensures { IfOk result (λ id. option_map string_bytes id ≡ identifier_parameter target.now) }
{
    first_value(alloc, raw_pairs(query_of(target).as_bytes()), "ID")
}

/// Returns the values of all parameters `of` of a target, in order, decoded as form data (URL
/// Standard, section 5).
pub(crate) fn texts_parameter(alloc: Global, target: &str) -> Result<Texts, AllocError>
    ensures { IfOk result (λ texts. texts ≡ texts_parameter target.now) }
{
    let values = all_values(alloc, raw_pairs(query_of(target).as_bytes()), "of")?;
    Ok(Texts::new(values))
}

/// Returns the values of all pairs with this name, decoded.
fn all_values(alloc: Global, pairs: RawPairs<'_>, called: &str) -> Result<Vec<Text>, AllocError>
    ensures { IfOk result (λ values. values.items ≡ all_values called.now (raw_pairs_left pairs.entry)) }
{
    let mut values = Vec::new(alloc);
    for (name, value) in pairs {
        if is_called(alloc, name, called)? {
            values.push(Text::new(decode_value(alloc, value)?))?;
        }
    }
    Ok(values)
}

/// Returns the value of the first pair with this name, decoded.
fn first_value(
    alloc: Global,
    pairs: RawPairs<'_>,
    called: &str,
) -> Result<Option<String>, AllocError>
    ensures { IfOk result (λ value. option_map string_bytes value ≡ first_value called.now (raw_pairs_left pairs.entry)) }
{
    for (name, value) in pairs {
        if is_called(alloc, name, called)? {
            return Ok(Some(decode_value(alloc, value)?));
        }
    }
    Ok(None)
}

/// Returns true if the decoded name of a pair is this text.
fn is_called(alloc: Global, name: &[u8], called: &str) -> Result<bool, AllocError>
    ensures { IfOk result (λ same. same ≡ bytes_eq (decoded name.now) called.now) }
{
    Ok(decode(alloc, name)?.as_str() == called)
}

/// Decodes the value of a pair.
fn decode_value(alloc: Global, value: &[u8]) -> Result<String, AllocError>
    ensures { IfOk result (λ text. string_bytes text ≡ decoded value.now) }
{
    decode(alloc, value)?.into_owned(alloc)
}

/// Returns the text after the first question mark, or an empty text without one.
fn query_of(target: &str) -> &str
    ensures { result.now ≡ query_of target.now }
{
    match target.split_once('?') {
        Some((_, query)) => query,
        None => "",
    }
}
