//! Lookup of the instances that a text may name.

ghost use Rattle.std.specs.Prelude.{◌≡◌, ◌≤◌, ◌<◌, ◌^◌, IfOk, length, bit_and};
ghost use Rattle.tfs_index.specs.Directory.{IsDirectory, AreBuckets, bucket_of};
ghost use Rattle.tfs_state.specs.Dependency.{address_of, config_of};

use crate::links::Links;
use std::alloc::{AllocError, Global};
use tfs_state::{Doc, text_digest};

/// A document's instances in buckets, by the digests of their addresses and by the digests of their
/// configuration addresses. The mask selects the bits of a digest that choose the bucket.
#[derive(Drop)]
pub(crate) struct Directory {
    pub(crate) mask: u32,
    pub(crate) addresses: Links,
    pub(crate) configs: Links,
}

impl Directory {
    /// Creates the directory of a document, with about as many buckets as instances.
    pub(crate) fn new(alloc: Global, doc: &Doc) -> Result<Directory, AllocError>
        ensures { IfOk result (IsDirectory doc.now) }
    {
        let mask = (doc.len().next_power_of_two() - 1) as u32;
        let addresses = Links::new(alloc, address_buckets(alloc, doc, mask)?)?;
        let configs = Links::new(alloc, config_buckets(alloc, doc, mask)?)?;
        Ok(Directory {
            mask,
            addresses,
            configs,
        })
    }

    /// Returns the bucket of a text.
    pub(crate) fn bucket(&self, text: &str) -> u32
        ensures { result ≡ bucket_of self.now.mask text.now }
    {
        masked_digest(text_digest(text), self.mask)
    }
}

/// Returns the bits of a digest that the mask selects.
fn masked_digest(digest: u64, mask: u32) -> u32
    ensures { result ≡ bit_and digest mask }
{
    (digest & u64::from(mask)) as u32
}

/// Returns the buckets of the instances' addresses.
fn address_buckets(alloc: Global, doc: &Doc, mask: u32) -> Result<Vec<u32>, AllocError>
    ensures len { IfOk result (λ numbers. length numbers.items ≡ length doc.now.instances) }
    ensures buckets { IfOk result (λ numbers. AreBuckets mask (address_of doc.now) numbers.items) }
{
    let mut numbers = Vec::with_capacity(alloc, doc.len())?;
    for v in 0..doc.len() {
        numbers.push(masked_digest(doc.address(v).digest(), mask))?;
    }
    Ok(numbers)
}

/// Returns the buckets of the instances' configuration addresses.
fn config_buckets(alloc: Global, doc: &Doc, mask: u32) -> Result<Vec<u32>, AllocError>
    ensures len { IfOk result (λ numbers. length numbers.items ≡ length doc.now.instances) }
    ensures buckets { IfOk result (λ numbers. AreBuckets mask (config_of doc.now) numbers.items) }
{
    let mut numbers = Vec::with_capacity(alloc, doc.len())?;
    for v in 0..doc.len() {
        numbers.push(masked_digest(doc.config_digest(v), mask))?;
    }
    Ok(numbers)
}
