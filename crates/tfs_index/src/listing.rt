//! The addresses of instances as elements of a list of JSON texts.

ghost use Rattle.std.specs.Prelude.{◌≡◌, ◌≤◌, ◌<◌, ◌+◌, ◌-◌, ◌^◌, IfOk, IfSome, OnOk, length};
ghost use Rattle.tfs_state.specs.Document.{Document};
ghost use Rattle.tfs_index.specs.Listing.{IsListing, addresses_from};

use std::alloc::{AllocError, Global};
use tfs_escapes::{escaped_len, push_escaped};
use tfs_state::Doc;

/// The JSON texts of a document's first instances, concatenated, and the position at which each
/// ends.
#[derive(Drop)]
pub(crate) struct Listing {
    text: Vec<u8>,
    ends: Vec<usize>,
}

impl Listing {
    /// Creates a listing without instances, which takes no memory.
    pub(crate) fn empty(alloc: Global) -> Listing
        ensures { (d : Document) → IsListing d result }
    {
        Listing {
            text: Vec::new(alloc),
            ends: Vec::new(alloc),
        }
    }

    /// Creates the listing of a document. It covers as many of the first instances as have texts
    /// that together are at most as long as the document.
    pub(crate) fn new(alloc: Global, doc: &Doc) -> Result<Listing, AllocError>
        ensures { IfOk result (IsListing doc.now) }
    {
        let (count, bytes) = room_for(doc);
        let mut listing = Listing {
            text: Vec::with_capacity(alloc, bytes)?,
            ends: Vec::with_capacity(alloc, count)?,
        };
        'instances: while listing.ends.len() < count {
            listing.add(doc)?;
        }
        Ok(listing)
    }

    /// Appends the text of the next instance.
    fn add(&mut self, doc: &Doc) -> Result<(), AllocError>
        requires listing { IsListing doc.now self.old }
        requires within { length self.old.ends.items < length doc.now.instances }
        ensures listing { OnOk result (IsListing doc.now self.new) }
        ensures count { OnOk result (length self.new.ends.items ≡ length self.old.ends.items + 1) }
    {
        let (front, tail) = doc.address(self.ends.len()).parts();
        self.text.extend_from_slice(b"\",\"")?;
        push_escaped(&mut self.text, front.as_bytes())?;
        push_escaped(&mut self.text, tail.as_bytes())?;
        self.ends.push(self.text.len())?;
        Ok(())
    }

    /// Returns the texts of the instances from `first` up to but excluding `end`, if they are kept.
    pub(crate) fn between(&self, first: usize, end: usize) -> Option<&[u8]>
        ensures text { IfSome result (λ text. (d : Document) → IsListing d self.now
            → text.now ≡ addresses_from d first (end - first)) }
        ensures within { IfSome result (λ text. (first ≤ end) × (end ≤ length self.now.ends.items)) }
    {
        if first > end || end > self.ends.len() {
            return None;
        }
        self.text
            .as_slice()
            .get(self.end_of(first)..self.end_of(end))
    }

    /// Returns the position at which the texts of the first `count` instances end.
    fn end_of(&self, count: usize) -> usize
        requires { count ≤ length self.now.ends.items }
        ensures { (d : Document) → IsListing d self.now → result ≡ length (addresses_from d 0 count) }
    {
        if count == 0 {
            return 0;
        }
        self.ends[count - 1]
    }
}

/// Returns how many of the first instances have texts that together are at most as long as the
/// document, and the length of these texts in bytes.
fn room_for(doc: &Doc) -> (usize, usize)
    ensures count { result.0 ≤ length doc.now.instances }
    ensures bytes { result.1 ≤ length doc.now.bytes }
{
    let most = doc.bytes().len() as u128;
    let mut bytes = 0;
    let mut count = 0;
    'instances: while count < doc.len() {
        let more = bytes + text_len(doc, count);
        if more > most {
            return (count, bytes as usize);
        }
        bytes = more;
        count += 1;
    }
    (count, bytes as usize)
}

/// Returns the length of an instance's text in bytes.
fn text_len(doc: &Doc, number: usize) -> u128
    requires { number < length doc.now.instances }
    ensures { result < 2 ^ 67 }
{
    let (front, tail) = doc.address(number).parts();
    3 + escaped_len(front.as_bytes()) + escaped_len(tail.as_bytes())
}
