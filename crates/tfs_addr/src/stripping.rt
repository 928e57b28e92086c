//! Removes instance keys from a text. The steps for one key take a few nanoseconds each, so they
//! are inlined into the loops that call them.

ghost use Rattle.std.specs.Prelude.{◌≡◌, ◌≢◌, ◌++◌, ◌*◌, ◌+◌, ◌<◌, ◌≤◌, ℕ, List, [], length, chars, IsUtf8, option_copied, IfOk, IfErr, IsOk, OnOk, OnErr, IfSome, Ok, string_bytes, string_len, string_capacity, true, false};
ghost use Rattle.tfs_addr.specs.Address.{opening, closing, IsStripped, StopsBefore, HasNoReading, BeginsNoPiece, GivesText, stripped_text, quote, backslash};
ghost use Rattle.tfs_addr.specs.Steps.{HasNeither, MayBeginWith, IsBracketOf, FaultOf, IsKeyThen, rest_after, units_rest, key_rest, without_digits};

use crate::either::find_either;
use crate::fault::AddrFault;
use std::alloc::{AllocError, Global};

/// Returns the text without its instance keys, such as `a.b` for `a[0].b["k"]` (Terraform
/// documentation: resource address reference).
///
/// A key is `[`, one or more ASCII digits and `]`, or `["`, characters and `"]`, in which a
/// backslash escapes the character after it. All other characters except brackets are kept. Takes
/// time linear in the text's length.
///
/// # Errors
///
/// Returns `Unclosed` if the first bracket that belongs to no key is a `[`, and `StrayBracket` if
/// it is a `]`. Returns `NoMemory` if memory for the new text is refused; an error in the text
/// takes precedence.
pub fn strip(alloc: Global, text: &str) -> Result<String, AddrFault>
    ensures ok { IfOk result (λ bare. IsStripped text.now (string_bytes bare)) }
    ensures room { IfOk result (λ bare. 4 * string_capacity bare ≤ 5 * string_len bare) }
    ensures unclosed { result ≡ Err AddrFault.Unclosed → StopsBefore text.now opening }
    ensures stray_bracket { result ≡ Err AddrFault.StrayBracket → StopsBefore text.now closing }
    ensures no_reading { IfErr result (λ e. e ≢ AddrFault.NoMemory → HasNoReading text.now) }
    ensures value { GivesText result (stripped_text text.now) }
    ensures empty { text.now ≡ [] → IsOk result }
{
    let len = bare_len(text)?;
    bare_text(alloc, text, len)
}

/// Returns the text without its keys, which has `len` bytes.
fn bare_text(alloc: Global, text: &str, len: usize) -> Result<String, AddrFault>
    ensures ok { IfOk result (λ bare. IsStripped text.now (string_bytes bare)) }
    ensures room { IfOk result (λ bare. 4 * string_capacity bare ≤ 5 * string_len bare) }
    ensures err { IfErr result (λ e. e ≢ AddrFault.NoMemory → FaultOf text.now e) }
    ensures empty { text.now ≡ [] → len ≡ 0 → IsOk result }
{
    let mut bare = String::with_capacity(alloc, len)?;
    let mut rest = text;
    loop {
        let (front, key) = split_at_bracket(rest);
        keep(&mut bare, front)?;
        if key.is_empty() {
            return Ok(shrink_to_fit(bare)?);
        }
        rest = after_key(key)?;
    }
}

/// Appends the text before a key, which is often empty.
#[inline(always)]
fn keep(bare: &mut String, front: &str) -> Result<(), AllocError>
    ensures bytes { OnOk result (string_bytes bare.new ≡ string_bytes bare.old ++ front.now) }
    ensures len { OnOk result (string_len bare.new ≡ string_len bare.old + length front.now) }
    ensures full { OnErr result (string_capacity bare.old < string_len bare.old + length front.now) }
{
    if front.is_empty() {
        return Ok(());
    }
    bare.push_str(front)
}

/// Returns the text with little spare capacity. A text that was created with capacity for its
/// length isn't moved. Fails only if the allocator gave the text much more capacity and takes none
/// back.
fn shrink_to_fit(mut text: String) -> Result<String, AllocError>
    ensures kept { IfOk result (λ fit. string_bytes fit ≡ string_bytes text) }
    ensures room { IfOk result (λ fit. 4 * string_capacity fit ≤ 5 * string_len fit) }
    ensures err { OnErr result (5 * string_len text < 4 * string_capacity text) }
    ensures empty { string_len text ≡ 0 → IsOk result }
{
    if has_much_room(&text) {
        text.shrink_to_fit();
        if has_much_room(&text) {
            return Err(AllocError);
        }
    }
    Ok(text)
}

/// Returns true if the text's capacity is more than 1.25 times its length.
fn has_much_room(text: &String) -> bool
    ensures no { result ≡ false → 4 * string_capacity text.now ≤ 5 * string_len text.now }
    ensures yes { result ≡ true → 5 * string_len text.now < 4 * string_capacity text.now }
    ensures none { string_capacity text.now ≡ 0 → result ≡ false }
{
    text.capacity() - text.len() > text.len() / 4
}

/// Returns the number of bytes in the text without its keys.
fn bare_len(text: &str) -> Result<usize, AddrFault>
    ensures ok { IfOk result (λ len. (bare : List ℕ) × IsStripped text.now bare × (len ≡ length bare)) }
    ensures err { IfErr result (FaultOf text.now) }
    ensures empty { text.now ≡ [] → result ≡ Ok 0 }
{
    let mut len = 0;
    let mut rest = text;
    loop {
        let (front, key) = split_at_bracket(rest);
        len += front.len();
        if key.is_empty() {
            return Ok(len);
        }
        rest = after_key(key)?;
    }
}

/// Splits the text before its first bracket.
#[inline(always)]
fn split_at_bracket(text: &str) -> (&str, &str)
    ensures texts { IsUtf8 result.0.now × IsUtf8 result.1.now }
    ensures whole { chars text.now ≡ chars result.0.now ++ chars result.1.now }
    ensures front { HasNeither opening closing (chars result.0.now) }
    ensures back { MayBeginWith opening closing (chars result.1.now) }
{
    let at = find_either(text.as_bytes(), b'[', b']').unwrap_or(text.len());
    text.split_at(at)
}

/// Returns the text after the key at its beginning, or the error of its bracket if no key begins
/// there.
#[inline(always)]
fn after_key(text: &str) -> Result<&str, AddrFault>
    requires some { 0 < length text.now }
    requires bracket { MayBeginWith opening closing (chars text.now) }
    ensures ok { IfOk result (λ rest. IsKeyThen (chars text.now) (chars rest.now)) }
    ensures err { OnErr result (BeginsNoPiece (chars text.now)) }
    ensures fault { IfErr result (λ e. IsBracketOf e (chars text.now)) }
{
    if let Some(rest) = after_digit_key(text) {
        return Ok(rest);
    }
    if let Some(rest) = after_letter_key(text) {
        return Ok(rest);
    }
    after_long_key(text)
}

/// Returns the text after a key of one digit, the most common form.
#[inline(always)]
fn after_digit_key(text: &str) -> Option<&str>
    ensures { IfSome result (λ rest. IsKeyThen (chars text.now) (chars rest.now)) }
{
    match text.as_bytes() {
        [b'[', b'0'..=b'9', b']', ..] => Some(text.split_at(3).1),
        _ => None,
    }
}

/// Returns the text after a key of one byte in quotes.
#[inline(always)]
fn after_letter_key(text: &str) -> Option<&str>
    ensures { IfSome result (λ rest. IsKeyThen (chars text.now) (chars rest.now)) }
{
    match text.as_bytes() {
        [b'[', b'"', letter, b'"', b']', ..] if *letter != b'"' && *letter != b'\\' => {
            Some(text.split_at(5).1)
        }
        _ => None,
    }
}

/// Does the same as `after_key`, for a key of any length.
#[inline(always)]
fn after_long_key(text: &str) -> Result<&str, AddrFault>
    requires some { 0 < length text.now }
    requires bracket { MayBeginWith opening closing (chars text.now) }
    ensures ok { IfOk result (λ rest. IsKeyThen (chars text.now) (chars rest.now)) }
    ensures err { OnErr result (BeginsNoPiece (chars text.now)) }
    ensures fault { IfErr result (λ e. IsBracketOf e (chars text.now)) }
{
    match text.as_bytes() {
        [b'[', key @ ..] => match after_opening(key) {
            Some(rest) => Ok(text.split_at(text.len() - rest.len()).1),
            None => Err(AddrFault::Unclosed),
        },
        _ => Err(AddrFault::StrayBracket),
    }
}

/// Returns the bytes after a key whose opening bracket precedes `bytes`.
#[inline(always)]
fn after_opening(bytes: &[u8]) -> Option<&[u8]>
    ensures { option_copied result ≡ key_rest bytes.now }
{
    let (first, key) = bytes.split_first()?;
    let end = match *first {
        b'"' => after_units(key)?,
        b'0'..=b'9' => after_digits(key),
        _ => return None,
    };
    after_closing(end)
}

/// Returns the bytes after the closing bracket at the beginning.
#[inline(always)]
fn after_closing(bytes: &[u8]) -> Option<&[u8]>
    ensures { option_copied result ≡ rest_after closing bytes.now }
{
    match bytes {
        [b']', rest @ ..] => Some(rest),
        _ => None,
    }
}

/// Returns the bytes after the quote that ends the units. A backslash escapes a character, and
/// skipping that character's first byte suffices: its other bytes are neither quotes nor
/// backslashes.
#[inline(always)]
fn after_units(bytes: &[u8]) -> Option<&[u8]>
    ensures { option_copied result ≡ units_rest bytes.now }
{
    let mut rest = bytes;
    loop {
        let (mark, after) = from_mark(rest).split_first()?;
        if *mark == b'"' {
            return Some(after);
        }
        rest = after.split_first()?.1;
    }
}

/// Returns the bytes from the first quote or backslash on.
#[inline(always)]
fn from_mark(bytes: &[u8]) -> &[u8]
    ensures same { units_rest bytes.now ≡ units_rest result.now }
    ensures mark { MayBeginWith quote backslash result.now }
    ensures shorter { length result.now ≤ length bytes.now }
{
    let mark = find_either(bytes, b'"', b'\\').unwrap_or(bytes.len());
    &bytes[mark..]
}

/// Returns the bytes after the digits at the beginning.
#[inline(always)]
fn after_digits(bytes: &[u8]) -> &[u8]
    ensures { result.now ≡ without_digits bytes.now }
{
    for (index, byte) in bytes.iter().enumerate() {
        if !byte.is_ascii_digit() {
            return &bytes[index..];
        }
    }
    &bytes[bytes.len()..]
}
