//! Versions: documents with their index.

ghost use Rattle.std.specs.Prelude.{◌≡◌, ◌≢◌, ◌<◌, ◌≤◌, ◌-◌, ◌↔◌, map, length, IsTrue, IfOk, IfErr, IfSome, OnOk, OnErr, Some, None};
ghost use Rattle.std.specs.Arc.{arc_value};
ghost use Rattle.tfs_index.specs.Impact.{any_impact, all_impact, query_fault, IsReachedBySome, IsReachedByEach, IsRisingListOf};
ghost use Rattle.tfs_index.specs.Listing.{addresses_from};
ghost use Rattle.tfs_index.specs.Reach.{Reaches};
ghost use Rattle.tfs_index.specs.declared.fault.ImpactFault.TheVariants.{NoMemory};

use crate::fault::ImpactFault;
use crate::impact::{all_row, any_row};
use crate::index::Index;
use crate::listing::Listing;
use crate::names::first_fault;
use std::alloc::{AllocError, Global};
use std::marker::Model;
use std::sync::Arc;
use tfs_state::Doc;

/// A state document with its index: what each of its instances reaches, and a lookup of the
/// instances that a text names. It also keeps the addresses of the first instances as JSON texts,
/// as many as together are at most as long as the document.
#[derive(Drop)]
pub struct Version {
    doc: Arc<Doc>,
    index: Option<Index>,
    listing: Listing,
}

impl Model for Version {
    ghost use Rattle.std.specs.Arc.{arc_value};
    ghost use Rattle.tfs_state.specs.Document.{Document};
    ghost use Rattle.tfs_index.specs.Index.{HasIndex};
    ghost use Rattle.tfs_index.specs.Listing.{IsListing};

    ghost Value = { Document };

    ghost view = { λ version. arc_value version.doc };

    ghost invariant = { λ version. HasIndex (arc_value version.doc) version.index
        × IsListing (arc_value version.doc) version.listing };
}

impl Version {
    /// Builds the version of a document. Fails only if memory is exhausted; a document without
    /// instances needs no memory.
    pub fn build(alloc: Global, doc: Arc<Doc>) -> Result<Version, AllocError>
        ensures ok { IfOk result (λ version. version ≡ arc_value doc) }
        ensures err { OnErr result (0 < length (arc_value doc).instances) }
    {
        if doc.len() == 0 {
            return Ok(Version {
                doc,
                index: None,
                listing: Listing::empty(alloc),
            });
        }
        let index = Some(Index::new(alloc, &doc)?);
        let listing = Listing::new(alloc, &doc)?;
        Ok(Version {
            doc,
            index,
            listing,
        })
    }

    /// Returns the document.
    pub fn doc(&self) -> &Arc<Doc>
        ensures value { arc_value result.now ≡ self.now }
    {
        &self.doc
    }

    /// Returns the addresses of the instances from `first` up to but excluding `end`, as elements
    /// of a list of JSON texts (RFC 8259, sections 5 and 7). Each is preceded by the closing quote
    /// of the previous address, a comma and its own opening quote. Returns `None` if they aren't
    /// kept.
    pub fn address_list(&self, first: usize, end: usize) -> Option<&[u8]>
        ensures text { IfSome result (λ text. text.now ≡ addresses_from self.now first (end - first)) }
        ensures within { IfSome result (λ text. (first ≤ end) × (end ≤ length self.now.instances)) }
    {
        self.listing.between(first, end)
    }

    /// Returns true if a change of instance `v` reaches instance `u`: a walk of one or more
    /// dependencies leads from `u` to `v`.
    pub fn reaches(&self, v: usize, u: usize) -> bool
        requires v { v < length self.now.instances }
        requires u { u < length self.now.instances }
        ensures value { IsTrue result ↔ Reaches self.now v u }
    {
        match &self.index {
            Some(index) => index.plane.get(v, u),
            None => false,
        }
    }

    /// Returns the instances that are reached from an instance that any of the texts names, in
    /// ascending order. A text names the instances that have it as their address or configuration
    /// address. Errors of the texts take precedence over `NoMemory`.
    pub fn any(&self, alloc: Global, texts: &[&str]) -> Result<Vec<usize>, ImpactFault>
        ensures ok { IfOk result (λ numbers. numbers.items
            ≡ any_impact self.now (map (λ t. t.now) texts.now)) }
        ensures walks { IfOk result (λ numbers. IsRisingListOf (IsReachedBySome self.now (map (λ t. t.now) texts.now)) numbers.items) }
        ensures faultless { OnOk result (query_fault self.now (map (λ t. t.now) texts.now) ≡ None) }
        ensures err { IfErr result (λ fault. fault ≢ NoMemory
            → query_fault self.now (map (λ t. t.now) texts.now) ≡ Some fault) }
        ensures memory { IfErr result (λ fault. fault ≡ NoMemory
            → query_fault self.now (map (λ t. t.now) texts.now) ≡ None) }
    {
        if let Some(fault) = first_fault(&self.doc, &self.index, texts) {
            return Err(fault);
        }
        let Some(index) = &self.index else {
            return Ok(Vec::new(alloc));
        };
        let row = any_row(alloc, &self.doc, index, texts)?;
        Ok(row.members(alloc)?)
    }

    /// Returns the instances that are reached, for each text, from an instance that it names, in
    /// ascending order. Texts and errors are the same as for `any`.
    pub fn all(&self, alloc: Global, texts: &[&str]) -> Result<Vec<usize>, ImpactFault>
        ensures ok { IfOk result (λ numbers. numbers.items
            ≡ all_impact self.now (map (λ t. t.now) texts.now)) }
        ensures walks { IfOk result (λ numbers. IsRisingListOf (IsReachedByEach self.now (map (λ t. t.now) texts.now)) numbers.items) }
        ensures faultless { OnOk result (query_fault self.now (map (λ t. t.now) texts.now) ≡ None) }
        ensures err { IfErr result (λ fault. fault ≢ NoMemory
            → query_fault self.now (map (λ t. t.now) texts.now) ≡ Some fault) }
        ensures memory { IfErr result (λ fault. fault ≡ NoMemory
            → query_fault self.now (map (λ t. t.now) texts.now) ≡ None) }
    {
        if let Some(fault) = first_fault(&self.doc, &self.index, texts) {
            return Err(fault);
        }
        let Some(index) = &self.index else {
            return Ok(Vec::new(alloc));
        };
        let row = all_row(alloc, &self.doc, index, texts)?;
        Ok(row.members(alloc)?)
    }
}
