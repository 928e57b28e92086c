//! Lists that grow while they are read.

ghost use Rattle.std.specs.Prelude.{◌≡◌, ◌≢◌, ◌<◌, ◌≤◌, [], ◌∷◌, ◌++◌, Err, OnOk, vec_len, vec_capacity};

use crate::fault::JsonFault;
use std::alloc::Allocator;

/// Appends an element. If the list is full, it first grows by half its length and `least`;
/// otherwise no function is called.
#[inline(always)]
pub(crate) fn push<T: Drop, A: Allocator>(
    list: &mut Vec<T, A>,
    element: T,
    least: usize,
) -> Result<(), JsonFault>
    requires { 0 < least }
    ensures ok { OnOk result (list.new.items ≡ list.old.items ++ element ∷ []) }
    ensures err { result ≢ Err JsonFault.NotJson }
{
    if list.capacity() <= list.len() {
        make_room(list, least)?;
    }
    list.push_reserved(element);
    Ok(())
}

/// Reserves room for `least` elements and for half as many as the list has. More would cost too
/// much memory: if lists of one element had room for four, a text of brackets would take seventy
/// times its size.
#[cold]
#[inline(never)]
fn make_room<T, A: Allocator>(list: &mut Vec<T, A>, least: usize) -> Result<(), JsonFault>
    requires { 0 < least }
    ensures items { list.new.items ≡ list.old.items }
    ensures room { OnOk result (vec_len list.new < vec_capacity list.new) }
    ensures err { result ≢ Err JsonFault.NotJson }
{
    let more = (list.len() / 2).saturating_add(least);
    Ok(list.reserve_exact(more)?)
}
