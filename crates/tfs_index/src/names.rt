//! The instances that the texts of a query name.

ghost use Rattle.std.specs.Prelude.{◌≡◌, ℕ, ◌<◌, true, false, map, length, position, IfNone, IfSome, Some};
ghost use Rattle.tfs_index.specs.Impact as impact;
ghost use Rattle.tfs_index.specs.Index.{HasIndex};
ghost use Rattle.tfs_index.specs.Links.{has_number};
ghost use Rattle.tfs_state.specs.Dependency.{config_of};

use crate::fault::ImpactFault;
use crate::index::Index;
use crate::links::Links;
use tfs_state::Doc;

/// The maximum number of texts in a query.
pub const MAX_TEXTS: usize = 64;

/// Returns true if a text is the address or the configuration address of instance `v`.
pub(crate) fn names(doc: &Doc, text: &str, v: usize) -> bool
    requires { v < length doc.now.instances }
    ensures { result ≡ impact.names doc.now text.now v }
{
    doc.address(v).is(text) || doc.config(v) == text
}

/// Returns an instance of a bucket that the text names, if there is one.
fn find(doc: &Doc, links: &Links, bucket: u32, text: &str) -> Option<usize>
    requires { length links.now ≡ length doc.now.instances }
    ensures within { IfSome result (λ v. v < length doc.now.instances) }
    ensures named { IfSome result (λ v. impact.names doc.now text.now v ≡ true) }
    ensures none { IfNone result ((v : ℕ)
        → has_number links.now bucket v ≡ true → impact.names doc.now text.now v ≡ false) }
{
    let mut place = links.last(bucket);
    while place > 0 {
        if names(doc, text, place - 1) {
            return Some(place - 1);
        }
        place = links.before(place - 1);
    }
    None
}

/// Returns an instance of a bucket whose configuration address is the text, if there is one.
pub(crate) fn find_config(doc: &Doc, links: &Links, bucket: u32, text: &str) -> Option<usize>
    requires { length links.now ≡ length doc.now.instances }
    ensures within { IfSome result (λ v. v < length doc.now.instances) }
    ensures config { IfSome result (λ v. config_of doc.now v ≡ Some text.now) }
    ensures none { IfNone result ((v : ℕ)
        → has_number links.now bucket v ≡ true → config_of doc.now v ≡ Some text.now → ⊥) }
{
    let mut place = links.last(bucket);
    while place > 0 {
        if doc.config(place - 1) == text {
            return Some(place - 1);
        }
        place = links.before(place - 1);
    }
    None
}

/// Returns true if a text names no instance.
fn is_unknown(doc: &Doc, index: &Option<Index>, text: &str) -> bool
    requires { HasIndex doc.now index.now }
    ensures { result ≡ impact.is_unknown doc.now text.now }
{
    let Some(index) = index else {
        return true;
    };
    let bucket = index.directory.bucket(text);
    if find(doc, &index.directory.addresses, bucket, text).is_some() {
        return false;
    }
    find(doc, &index.directory.configs, bucket, text).is_none()
}

/// Returns the first fault of a query's texts, if there is one.
pub(crate) fn first_fault(doc: &Doc, index: &Option<Index>, texts: &[&str]) -> Option<ImpactFault>
    requires { HasIndex doc.now index.now }
    ensures { result ≡ impact.query_fault doc.now (map (λ t. t.now) texts.now) }
{
    if texts.is_empty() {
        return Some(ImpactFault::NoAddress);
    }
    if texts.len() > MAX_TEXTS {
        return Some(ImpactFault::TooManyAddresses);
    }
    match first_unknown(doc, index, texts) {
        Some(place) => Some(ImpactFault::UnknownAddress(place)),
        None => None,
    }
}

/// Returns the index of the first text that names no instance.
fn first_unknown(doc: &Doc, index: &Option<Index>, texts: &[&str]) -> Option<usize>
    requires { HasIndex doc.now index.now }
    ensures { result ≡ position (λ t. impact.is_unknown doc.now t.now) texts.now }
{
    texts.iter().position(|text| is_unknown(doc, index, text))
}
