//! The chains of dependencies that lead from instances back to the changed ones that reach them.

ghost use Rattle.std.specs.Prelude.{◌≡◌, ◌≢◌, ◌↔◌, ◌<◌, ◌≤◌, ◌+◌, ℕ, length, replicate, slice_get, false, Some, IsTrue, IfOk, OnOk, IfSome, IfNone};
ghost use Rattle.std.specs.Arc.{arc_value};
ghost use Rattle.tfs_plan.specs.Chains.{AreChains, Follows, LeadsBack, IsLed};
ghost use Rattle.tfs_plan.specs.Search.{AreWhole, IsSearch, Grows, Extends, HasStart, HasStep};
ghost use Rattle.tfs_state.specs.Dependency.{DependsOn};
ghost use Rattle.tfs_plan.specs.declared.chain.Step.{Step};

use std::alloc::{AllocError, Global};
use std::marker::Model;
use std::sync::Arc;
use tfs_index::Version;
use tfs_state::Doc;

/// A found instance, and the place of the step with the instance that it depends on; none for a
/// changed instance.
#[derive(Clone, Copy, Debug)]
pub(crate) struct Step {
    pub(crate) instance: usize,
    pub(crate) before: Option<usize>,
}

/// The chains of dependencies from instances of a state back to changed ones.
#[derive(Drop)]
pub struct Chains {
    version: Arc<Version>,
    starts: Vec<usize>,
    steps: Vec<Step>,
}

impl Model for Chains {
    ghost use Rattle.std.specs.Arc.{arc_value};
    ghost use Rattle.tfs_plan.specs.Chained.{Chained};
    ghost use Rattle.tfs_plan.specs.Search.{AreWhole};

    ghost Value = { Chained };

    ghost view = { λ c. record { document = arc_value c.version; starts = c.starts.items } };

    ghost invariant = { λ c. AreWhole (arc_value c.version) c.starts.items c.steps.items };
}

/// The steps that a search has found, and whether each instance has one.
#[derive(Drop)]
pub(crate) struct Found {
    pub(crate) steps: Vec<Step>,
    pub(crate) is_found: Vec<bool>,
}

impl Chains {
    /// Returns the chains that lead back to the changed instances `starts`. The first `count` of
    /// them come before the others: an instance that both reach is led back to one of the first.
    /// Numbers beyond the last instance are passed over.
    pub fn new(
        alloc: Global,
        version: &Arc<Version>,
        starts: &[usize],
        count: usize,
    ) -> Result<Chains, AllocError>
        ensures document { IfOk result (λ chains. chains.document ≡ arc_value version.now) }
        ensures starts { IfOk result (λ chains. chains.starts ≡ starts.now) }
    {
        let version = version.clone()?;
        let steps = steps_of(alloc, version.doc(), starts, count.min(starts.len()))?;
        let starts = Vec::from_slice(alloc, starts)?;
        Ok(Chains {
            version,
            starts,
            steps,
        })
    }

    /// Returns the chain of an instance: the instance itself, one that it depends on, and so on, up
    /// to one of the changed ones. Returns an empty list for an instance that isn't changed, and
    /// that no changed one reaches.
    pub fn chain(&self, alloc: Global, u: usize) -> Result<Vec<usize>, AllocError>
        ensures chain { IfOk result (λ chain. 0 < length chain.items
            → LeadsBack self.now.document self.now.starts u chain.items) }
        ensures found { IfOk result (λ chain. IsLed self.now.document self.now.starts u → 0 < length chain.items) }
    {
        let (starts, steps) = (self.starts.as_slice(), self.steps.as_slice());
        chain_back(alloc, self.version.doc(), starts, steps, u)
    }
}

/// Returns the steps of the changed instances, and of all instances that these reach.
fn steps_of(
    alloc: Global,
    doc: &Doc,
    starts: &[usize],
    count: usize,
) -> Result<Vec<Step>, AllocError>
    requires { count ≤ length starts.now }
    ensures { IfOk result (λ steps. AreWhole doc.now starts.now steps.items) }
{
    let mut found = Found {
        steps: Vec::new(alloc),
        is_found: no_marks(alloc, doc.len())?,
    };
    start(doc, starts, &mut found, 0, count)?;
    spread(doc, starts, &mut found, 0)?;
    let later = found.steps.as_slice().len();
    start(doc, starts, &mut found, count, starts.len())?;
    spread(doc, starts, &mut found, later)?;
    Ok(found.steps)
}

/// Returns a list of `count` times `false`.
fn no_marks(alloc: Global, count: usize) -> Result<Vec<bool>, AllocError>
    ensures { IfOk result (λ marks. marks.items ≡ replicate count false) }
{
    vec![in alloc; false; count]
}

/// Appends a step for each of some changed instances that has none: those with the indexes from
/// `from` up to but excluding `end`.
fn start(
    doc: &Doc,
    starts: &[usize],
    found: &mut Found,
    from: usize,
    end: usize,
) -> Result<(), AllocError>
    requires indexes { end ≤ length starts.now }
    ensures grows { OnOk result (Grows doc.now starts.now found.old found.new) }
    ensures started { OnOk result ((below : ℕ) → IsSearch doc.now starts.now below found.old
        → (i : ℕ) → from ≤ i → i < end → HasStart doc.now starts.now found.new.steps.items i) }
{
    for i in from..end {
        begin(doc, starts, found, i)?;
    }
    Ok(())
}

/// Appends a step for the changed instance with an index, if it has none.
fn begin(doc: &Doc, starts: &[usize], found: &mut Found, i: usize) -> Result<(), AllocError>
    requires index { i < length starts.now }
    ensures grows { OnOk result (Grows doc.now starts.now found.old found.new) }
    ensures started { OnOk result ((below : ℕ) → IsSearch doc.now starts.now below found.old
        → HasStart doc.now starts.now found.new.steps.items i) }
{
    let v = starts[i];
    if v < doc.len() && is_new(found.is_found.as_slice(), v) {
        add(doc, starts, found, v, None)?;
    }
    Ok(())
}

/// Appends a step of an instance that has none.
fn add(
    doc: &Doc,
    starts: &[usize],
    found: &mut Found,
    u: usize,
    before: Option<usize>,
) -> Result<(), AllocError>
    requires instance { u < length doc.now.instances }
    requires new { slice_get found.old.is_found.items u ≡ Some false }
    requires follows { Follows doc.now starts.now found.old.steps.items (length found.old.steps.items) u before }
    ensures grows { OnOk result (Grows doc.now starts.now found.old found.new) }
    ensures added { OnOk result (HasStep found.new.steps.items u) }
{
    // Only the contract uses these.
    let _ = doc;
    let _ = starts;
    found.steps.push(Step {
        instance: u,
        before,
    })?;
    found.is_found[u] = true;
    Ok(())
}

/// Returns true if an instance has no step.
fn is_new(is_found: &[bool], u: usize) -> bool
    ensures { IsTrue result ↔ (slice_get is_found.now u ≡ Some false) }
{
    match is_found.get(u) {
        Some(is) => !*is,
        None => false,
    }
}

/// Appends steps for the instances that depend on those of the steps from `first` on, directly or
/// through others, nearest first.
fn spread(doc: &Doc, starts: &[usize], found: &mut Found, first: usize) -> Result<(), AllocError>
    requires { IsSearch doc.now starts.now first found.old }
    ensures whole { OnOk result (IsSearch doc.now starts.now (length found.new.steps.items) found.new) }
    ensures longer { OnOk result (Extends found.old.steps.items found.new.steps.items) }
{
    let mut place = first;
    while place < found.steps.as_slice().len() {
        follow(doc, starts, found, place)?;
        place += 1;
    }
    Ok(())
}

/// Appends a step for each instance without one that depends on the instance of the step at a
/// place.
fn follow(doc: &Doc, starts: &[usize], found: &mut Found, place: usize) -> Result<(), AllocError>
    requires search { IsSearch doc.now starts.now place found.old }
    requires place { place < length found.old.steps.items }
    ensures search { OnOk result (IsSearch doc.now starts.now (place + 1) found.new) }
    ensures longer { OnOk result (Extends found.old.steps.items found.new.steps.items) }
{
    for u in 0..doc.len() {
        join(doc, starts, found, place, u)?;
    }
    Ok(())
}

/// Appends a step for an instance if it has none and depends on the instance of the step at a
/// place.
fn join(
    doc: &Doc,
    starts: &[usize],
    found: &mut Found,
    place: usize,
    u: usize,
) -> Result<(), AllocError>
    requires search { IsSearch doc.now starts.now place found.old }
    requires place { place < length found.old.steps.items }
    requires instance { u < length doc.now.instances }
    ensures grows { OnOk result (Grows doc.now starts.now found.old found.new) }
    ensures joined { OnOk result ((s : Step) → slice_get found.old.steps.items place ≡ Some s
        → DependsOn doc.now u s.instance → HasStep found.new.steps.items u) }
{
    let v = step_at(found.steps.as_slice(), place).instance;
    if is_new(found.is_found.as_slice(), u) && doc.depends(u, v) {
        add(doc, starts, found, u, Some(place))?;
    }
    Ok(())
}

/// Returns the place of an instance's step, if it has one.
fn place_of(steps: &[Step], u: usize) -> Option<usize>
    ensures within { IfSome result (λ place. place < length steps.now) }
    ensures own { IfSome result (λ place. (s : Step) → slice_get steps.now place ≡ Some s → s.instance ≡ u) }
    ensures absent { IfNone result ((k : ℕ) (s : Step) → slice_get steps.now k ≡ Some s → s.instance ≢ u) }
{
    for (place, step) in steps.iter().enumerate() {
        if step.instance == u {
            return Some(place);
        }
    }
    None
}

/// Returns the chain of an instance, or an empty list if it has no step.
fn chain_back(
    alloc: Global,
    doc: &Doc,
    starts: &[usize],
    steps: &[Step],
    u: usize,
) -> Result<Vec<usize>, AllocError>
    requires chains { AreChains doc.now starts.now steps.now }
    requires whole { AreWhole doc.now starts.now steps.now }
    ensures chain { IfOk result (λ chain. 0 < length chain.items → LeadsBack doc.now starts.now u chain.items) }
    ensures found { IfOk result (λ chain. IsLed doc.now starts.now u → 0 < length chain.items) }
{
    // Only the contract uses these.
    let _ = doc;
    let _ = starts;
    let mut chain = Vec::new(alloc);
    let Some(mut at) = place_of(steps, u) else {
        return Ok(chain);
    };
    loop {
        let step = step_at(steps, at);
        chain.push(step.instance)?;
        match step.before {
            Some(before) => at = before,
            None => return Ok(chain),
        }
    }
}

/// Returns the step at a place.
fn step_at(steps: &[Step], place: usize) -> Step
    requires { place < length steps.now }
    ensures { slice_get steps.now place ≡ Some result }
{
    steps[place]
}
