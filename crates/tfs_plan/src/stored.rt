//! Addresses as states have them.

use std::alloc::{AllocError, Global};

/// Returns an address of a plan as the state has it: Terraform doubles `$` and `%` before `{` in
/// the key at the end of an address, and the state has that key as it is.
pub fn stored_address(alloc: Global, address: &str) -> Result<String, AllocError> {
    let (front, key) = match address.rfind("[\"") {
        Some(place) => address.split_at(place),
        None => (address, ""),
    };
    let mut stored = String::with_capacity(alloc, address.len())?;
    stored.push_str(front)?;
    push_key(&mut stored, key)?;
    Ok(stored)
}

/// Appends a key, with each doubled mark once.
fn push_key(stored: &mut String, key: &str) -> Result<(), AllocError> {
    let mut rest = key.chars();
    while let Some(c) = rest.next() {
        if !is_doubled(c, rest.as_str()) {
            stored.push(c)?;
        }
    }
    Ok(())
}

/// Returns true if a character is the first of two marks before `{`.
fn is_doubled(c: char, rest: &str) -> bool {
    match c {
        '$' => rest.starts_with("${"),
        '%' => rest.starts_with("%{"),
        _ => false,
    }
}
