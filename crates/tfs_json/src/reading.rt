//! Reads bytes into the tree of kept values.

ghost use Rattle.std.specs.Prelude.{◌≡◌, ◌<◌, length, Some, None, Err, IfOk, IfErr, OnOk, MatchBool};
ghost use Rattle.std.specs.Str.{IsUtf8};
ghost use Rattle.serde_json.specs.Read.{converted};
ghost use Rattle.json.specs.Json.{value, items, members};
ghost use Rattle.json.specs.Value.{value_view, items_view, members_view};
ghost use Rattle.tfs_json.specs.Kept.{is_wanted, kept, kept_items, kept_members, SpellsKept, kept_text};
ghost use Rattle.tfs_json.specs.Taken.{PutsLast, PassesOver};
ghost use Rattle.tfs_json.specs.Json.{json_value};
ghost use Rattle.tfs_json.specs.declared.fault.JsonFault.TheVariants.{NotJson, NoMemory};

use crate::fault::JsonFault;
use crate::growing::push;
use crate::numbers::number_fits;
use crate::skipping::skip;
use crate::wanted::is_wanted;
use json::{Reader, Scratch, Token, Value};
use std::alloc::Allocator;

/// The maximum nesting depth of lists and objects.
const MAX_DEPTH: usize = 127;

/// Reads the kept part of the JSON value in `bytes`. `NotJson` means that the bytes aren't a JSON
/// value. `NoMemory` means that it isn't known whether they are one. Bytes that aren't UTF-8 give
/// `NotJson`, because no memory is requested for them.
pub fn read_kept<'t, A: Allocator + Copy, S: Allocator>(
    alloc: A,
    bytes: &'t [u8],
    scratch: &'t mut Scratch<S>,
) -> Result<Value<'t, A>, JsonFault>
    ensures ok { IfOk result (λ tree. SpellsKept bytes.now (value_view tree)) }
    ensures err { IfErr result (λ fault. fault ≡ NotJson → json_value bytes.now ≡ None) }
    ensures memory { IfErr result (λ fault. fault ≡ NoMemory → IsUtf8 bytes.now) }
    ensures utf8 { OnOk result (IsUtf8 bytes.now) }
{
    match simdutf8::compat::from_utf8(bytes) {
        Ok(text) => read_text(alloc, text, scratch),
        Err(_) => Err(JsonFault::NotJson),
    }
}

/// Reads the kept part of a text.
fn read_text<'t, A: Allocator + Copy, S: Allocator>(
    alloc: A,
    text: &'t str,
    scratch: &'t mut Scratch<S>,
) -> Result<Value<'t, A>, JsonFault>
    ensures ok { IfOk result (λ tree. kept_text text.now ≡ Some (value_view tree)) }
    ensures err { IfErr result (λ fault. fault ≡ NotJson → kept_text text.now ≡ None) }
{
    let mut reader = Reader::new(text, scratch)?;
    let tree = read(alloc, &mut reader, MAX_DEPTH)?;
    if reader.next().is_some() {
        return Err(JsonFault::NotJson);
    }
    Ok(tree)
}

#[cycle(read)]
#[inline(always)]
fn read<'t, A: Allocator + Copy>(
    alloc: A,
    reader: &mut Reader<'t>,
    depth: usize,
) -> Result<Value<'t, A>, JsonFault>
    ensures ok { IfOk result
        (λ v. converted kept (value depth reader.old) ≡ Some (value_view v, reader.new)) }
    ensures shorter { OnOk result (length reader.new < length reader.old) }
    ensures err { result ≡ Err JsonFault.NotJson → converted kept (value depth reader.old) ≡ None }
{
    let token = reader.next().ok_or(JsonFault::NotJson)?;
    match token {
        Token::String(text) => Ok(Value::String(text)),
        Token::Number(text) => if number_fits(text) {
            Ok(Value::Number(text))
        } else {
            Err(JsonFault::NotJson)
        },
        Token::Bool(b) => Ok(Value::Bool(b)),
        Token::Null => Ok(Value::Null),
        Token::EndObject | Token::EndArray | Token::Key(_) | Token::Bad => Err(JsonFault::NotJson),
        Token::BeginArray => {
            if depth == 0 {
                return Err(JsonFault::NotJson);
            }
            Ok(Value::Array(read_items(alloc, reader, depth - 1)?))
        }
        Token::BeginObject => {
            if depth == 0 {
                return Err(JsonFault::NotJson);
            }
            Ok(Value::Object(read_members(alloc, reader, depth - 1)?))
        }
    }
}

#[cycle(read)]
#[inline(never)]
fn read_items<'t, A: Allocator + Copy>(
    alloc: A,
    reader: &mut Reader<'t>,
    depth: usize,
) -> Result<Vec<Value<'t, A>, A>, JsonFault>
    ensures ok { IfOk result
        (λ v. converted kept_items (items (value depth) (length reader.old) reader.old)
        ≡ Some (items_view v.items, reader.new)) }
    ensures shorter { OnOk result (length reader.new < length reader.old) }
    ensures err { result ≡ Err JsonFault.NotJson
        → converted kept_items (items (value depth) (length reader.old) reader.old) ≡ None }
{
    let mut found = Vec::new(alloc);
    'items: while !reader.take_end_array() {
        let item = read(alloc, reader, depth)?;
        push(&mut found, item, 1)?;
    }
    Ok(found)
}

#[cycle(read)]
#[inline(never)]
fn read_members<'t, A: Allocator + Copy>(
    alloc: A,
    reader: &mut Reader<'t>,
    depth: usize,
) -> Result<Vec<(&'t str, Value<'t, A>), A>, JsonFault>
    ensures ok { IfOk result
        (λ v. converted kept_members (members (value depth) (length reader.old) reader.old)
        ≡ Some (members_view v.items, reader.new)) }
    ensures shorter { OnOk result (length reader.new < length reader.old) }
    ensures err { result ≡ Err JsonFault.NotJson
        → converted kept_members (members (value depth) (length reader.old) reader.old) ≡ None }
{
    let mut found = Vec::new(alloc);
    'members: while let Some(name) = reader.next_key()? {
        take_member(alloc, reader, depth, name, &mut found)?;
    }
    Ok(found)
}

/// Reads the member `name`, and appends it if that name is kept; otherwise skips it.
#[cycle(read)]
#[inline(always)]
fn take_member<'t, A: Allocator + Copy>(
    alloc: A,
    reader: &mut Reader<'t>,
    depth: usize,
    name: &'t str,
    found: &mut Vec<(&'t str, Value<'t, A>), A>,
) -> Result<(), JsonFault>
    ensures ok { OnOk result (MatchBool (is_wanted name.now)
        (PutsLast depth name.entry reader.old reader.new found.old.items found.new.items)
        (PassesOver depth reader.old reader.new found.old.items found.new.items)) }
    ensures shorter { OnOk result (length reader.new < length reader.old) }
    ensures err { result ≡ Err JsonFault.NotJson → converted kept (value depth reader.old) ≡ None }
{
    if is_wanted(name) {
        let member = read(alloc, reader, depth)?;
        push(found, (name, member), 2)
    } else {
        Ok(skip(reader, depth)?)
    }
}
