//! The impact of changes.

ghost use Rattle.std.specs.Prelude.{◌≡◌, ◌≢◌, ◌⊎◌, ◌<◌, ◌≤◌, Some, None, IfOk, IfErr, OnOk, IfSome, IfNone, length, map};
ghost use Rattle.tfs_calls.specs.Impact.{chosen_by, query_refusal, fault_refusal};
ghost use Rattle.tfs_calls.specs.Refusal.{refusal_value, out_of_memory};

use crate::query::{Kind, Query};
use crate::refusal::Refusal;
use crate::text::Text;
use std::alloc::{AllocError, Global};
use std::marker::Model;
use std::sync::Arc;
use tfs_index::{ImpactFault, MAX_TEXTS, Version};

/// Numbers of instances in order, made from a vector and turned back into it without allocating.
/// Contracts see their list.
#[derive(Drop)]
pub struct Chosen {
    numbers: Vec<usize>,
}

impl Model for Chosen {
    ghost use Rattle.std.specs.Prelude.{List, ℕ};

    ghost Value = { List ℕ };

    ghost view = { λ c. c.numbers.items };
}

impl Chosen {
    pub fn new(numbers: Vec<usize>) -> Chosen
        ensures value { result ≡ numbers.items }
    {
        Chosen { numbers }
    }

    pub fn as_slice(&self) -> &[usize]
        ensures value { result.now ≡ self.now }
    {
        self.numbers.as_slice()
    }

    pub fn into_vec(self) -> Vec<usize>
        ensures value { result.items ≡ self }
    {
        self.numbers
    }
}

/// The answer to a query: the instances that a change affects, by their numbers in the version that
/// was queried, and the position of the journal then.
#[derive(Drop)]
pub struct Impact {
    pub version: Arc<Version>,
    pub chosen: Chosen,
    pub position: u64,
}

impl Query {
    /// Returns the instances of a version that the query chooses, by their numbers in ascending
    /// order. Allocates nothing if there are no texts or too many.
    pub fn choose(&self, alloc: Global, version: &Version) -> Result<Chosen, Refusal>
        ensures faultless { OnOk result (query_refusal version.now self.now ≡ None) }
        ensures ok { IfOk result (λ chosen. chosen ≡ chosen_by version.now self.now) }
        ensures err { IfErr result (λ refusal. (refusal_value refusal ≡ out_of_memory)
            ⊎ (query_refusal version.now self.now ≡ Some (refusal_value refusal))) }
        ensures memory { IfErr result (λ refusal. refusal_value refusal ≡ out_of_memory
            → (0 < length self.now.texts) × (length self.now.texts ≤ 64)) }
    {
        if let Some(refusal) = refusal_of_count(version, self) {
            return Err(refusal);
        }
        let texts = lent(alloc, self.texts.as_slice())?;
        let answer = match self.kind {
            Kind::Any => version.any(alloc, texts.as_slice()),
            Kind::All => version.all(alloc, texts.as_slice()),
        };
        match answer {
            Ok(numbers) => Ok(Chosen::new(numbers)),
            Err(fault) => Err(refusal_of_query(fault)),
        }
    }
}

/// Returns the refusal of a query for the number of its texts, if it has none or more than 64.
fn refusal_of_count(version: &Version, query: &Query) -> Option<Refusal>
    ensures some { IfSome result (λ refusal. query_refusal version.now query.now ≡ Some (refusal_value refusal)) }
    ensures memory { IfSome result (λ refusal. refusal_value refusal ≢ out_of_memory) }
    ensures none { IfNone result ((0 < length query.now.texts) × (length query.now.texts ≤ 64)) }
{
    // Only the contract uses the version: the same counts are refused for each version.
    let _ = version;
    let texts = query.texts.as_slice();
    if texts.is_empty() {
        return Some(Refusal::NoAddress);
    }
    if texts.len() > MAX_TEXTS {
        return Some(Refusal::TooManyAddresses);
    }
    None
}

/// Returns references to the texts.
fn lent<'t>(alloc: Global, texts: &'t [Text]) -> Result<Vec<&'t str>, AllocError>
    ensures { IfOk result (λ lent. map (λ t. t.now) lent.items ≡ texts.now) }
{
    let mut lent = Vec::with_capacity(alloc, texts.len())?;
    for text in texts {
        lent.push(text.as_str())?;
    }
    Ok(lent)
}

/// Returns the refusal for a fault of a query.
fn refusal_of_query(fault: ImpactFault) -> Refusal
    ensures { refusal_value result ≡ fault_refusal fault }
{
    match fault {
        ImpactFault::NoAddress => Refusal::NoAddress,
        ImpactFault::TooManyAddresses => Refusal::TooManyAddresses,
        ImpactFault::UnknownAddress(k) => Refusal::UnknownAddress(k),
        ImpactFault::NoMemory => Refusal::OutOfMemory,
    }
}
