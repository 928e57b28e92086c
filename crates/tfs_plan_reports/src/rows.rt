//! The rows of a plan's impact: the changed instances, and the instances that they reach.

use std::alloc::{AllocError, Global};
use std::sync::Arc;
use tfs_index::Version;
use tfs_plan::{
    Action, Chains, Change, Effect, changes_with, instance_of, reached, stored_address,
};
use tfs_state::Doc;

/// What happens to an instance.
#[derive(Clone, Copy, Debug, PartialEq, Eq)]
pub(crate) enum Outcome {
    /// It is destroyed.
    Destroyed,
    /// It is destroyed, and created anew.
    Replaced,
    /// It is removed from the state, and not destroyed.
    Forgotten,
    /// It is updated in place.
    Updated,
    /// The plan changes it, and the state has no such instance.
    Unknown,
    /// It depends on a changed instance, directly or through others, and the plan doesn't change
    /// it.
    Reached,
}

/// A row: an instance, and what happens to it.
#[derive(Drop)]
pub(crate) struct PlanRow {
    pub(crate) outcome: Outcome,
    /// The number of the instance in the state.
    pub(crate) number: Option<usize>,
    /// The instance's address once the plan has moved it.
    pub(crate) name: String,
    /// The instances from a changed one to this one, each depending on the previous one; none for
    /// a changed instance.
    pub(crate) chain: Vec<Link>,
}

/// An instance of a chain: its number in the state, and its address once the plan has moved it.
#[derive(Drop)]
pub(crate) struct Link {
    pub(crate) number: usize,
    pub(crate) name: String,
}

/// The rows of a plan's impact: destroyed, replaced and forgotten instances come first, then
/// updated, unknown and reached ones.
#[derive(Drop)]
pub struct PlanRows {
    pub(crate) rows: Vec<PlanRow>,
    /// The number of destroyed, replaced and forgotten instances.
    pub(crate) removed: usize,
    /// The number of updated instances.
    pub(crate) updated: usize,
    /// The number of instances that the state doesn't have.
    pub(crate) unknown: usize,
    /// The number of reached instances.
    pub(crate) reached: usize,
    /// The number of created instances.
    pub(crate) created: usize,
}

/// A state, and the instances that a plan changes.
#[derive(Drop)]
struct Changed<'a> {
    doc: &'a Doc,
    changes: &'a [Change],
    /// The numbers of moved instances, with the indexes of their changes.
    moved: Vec<(usize, usize)>,
    /// The numbers of changed instances.
    starts: Vec<usize>,
    rows: Vec<PlanRow>,
    unknown: Vec<PlanRow>,
}

/// Returns the rows of a plan's impact on a state.
pub fn rows_of(
    alloc: Global,
    version: &Arc<Version>,
    changes: &[Change],
) -> Result<PlanRows, AllocError> {
    let mut changed = Changed::new(alloc, version.doc(), changes)?;
    changed.add_changes(alloc, Effect::Removal)?;
    let removed = changed.starts.len();
    changed.add_changes(alloc, Effect::Update)?;
    let created = changes_with(alloc, changes, Effect::Creation)?.len();
    let starts = changed.starts.as_slice();
    let beyond = reached(alloc, version, starts, starts)?;
    let chains = Chains::new(alloc, version, starts, removed)?;
    let mut rows = PlanRows {
        rows: Vec::new(alloc),
        removed,
        updated: starts.len().saturating_sub(removed),
        unknown: changed.unknown.len(),
        reached: beyond.len(),
        created,
    };
    let mut last = Vec::with_capacity(alloc, beyond.len())?;
    for number in &beyond {
        last.push(changed.reached_row(alloc, &chains, *number)?)?;
    }
    let Changed {
        rows: first,
        unknown,
        ..
    } = changed;
    move_into(&mut rows.rows, first)?;
    move_into(&mut rows.rows, unknown)?;
    move_into(&mut rows.rows, last)?;
    Ok(rows)
}

/// Moves rows to the end of others.
fn move_into(rows: &mut Vec<PlanRow>, more: Vec<PlanRow>) -> Result<(), AllocError> {
    for row in more {
        rows.push(row)?;
    }
    Ok(())
}

impl<'a> Changed<'a> {
    /// Returns a state with the moves of a plan, and no changed instances.
    fn new(alloc: Global, doc: &'a Doc, changes: &'a [Change]) -> Result<Changed<'a>, AllocError> {
        Ok(Changed {
            doc,
            changes,
            moved: moved_instances(alloc, doc, changes)?,
            starts: Vec::new(alloc),
            rows: Vec::new(alloc),
            unknown: Vec::new(alloc),
        })
    }

    /// Adds the instances of the changes with an effect.
    fn add_changes(&mut self, alloc: Global, effect: Effect) -> Result<(), AllocError> {
        let changes = self.changes;
        let places = changes_with(alloc, changes, effect)?;
        for place in &places {
            if let Some(change) = changes.get(*place) {
                self.add_change(alloc, change)?;
            }
        }
        Ok(())
    }

    /// Adds the instance of a change.
    fn add_change(&mut self, alloc: Global, change: &Change) -> Result<(), AllocError> {
        let address = stored_address(alloc, former_address(change))?;
        let chain = Vec::new(alloc);
        match instance_of(self.doc, address.as_str()) {
            Some(number) => {
                self.starts.push(number)?;
                self.rows.push(PlanRow {
                    outcome: outcome_of(change.action()),
                    number: Some(number),
                    name: stored_address(alloc, change.address())?,
                    chain,
                })?;
            }
            None => self.unknown.push(PlanRow {
                outcome: Outcome::Unknown,
                number: None,
                name: address,
                chain,
            })?,
        }
        Ok(())
    }

    /// Returns the row of a reached instance.
    fn reached_row(
        &self,
        alloc: Global,
        chains: &Chains,
        number: usize,
    ) -> Result<PlanRow, AllocError> {
        let numbers = chains.chain(alloc, number)?;
        let mut chain = Vec::with_capacity(alloc, numbers.len())?;
        for link in numbers.iter().rev() {
            chain.push(Link {
                number: *link,
                name: self.name_of(alloc, *link)?,
            })?;
        }
        Ok(PlanRow {
            outcome: Outcome::Reached,
            number: Some(number),
            name: self.name_of(alloc, number)?,
            chain,
        })
    }

    /// Returns the address of an instance once the plan has moved it.
    fn name_of(&self, alloc: Global, number: usize) -> Result<String, AllocError> {
        for (moved, place) in &self.moved {
            if *moved == number {
                if let Some(change) = self.changes.get(*place) {
                    return stored_address(alloc, change.address());
                }
            }
        }
        if number < self.doc.len() {
            let address = self.doc.address(number);
            return format!(in alloc; "{address}");
        }
        Ok(String::new(alloc))
    }
}

/// Returns the numbers of moved instances, with the indexes of their changes.
fn moved_instances(
    alloc: Global,
    doc: &Doc,
    changes: &[Change],
) -> Result<Vec<(usize, usize)>, AllocError> {
    let mut moved = Vec::new(alloc);
    for (place, change) in changes.iter().enumerate() {
        if let Some(previous) = change.previous() {
            let previous = stored_address(alloc, previous)?;
            if let Some(number) = instance_of(doc, previous.as_str()) {
                moved.push((number, place))?;
            }
        }
    }
    Ok(moved)
}

/// Returns the address that an instance has in the state: the one before its move, if it is moved.
fn former_address(change: &Change) -> &str {
    match change.previous() {
        Some(previous) => previous,
        None => change.address(),
    }
}

/// Returns what an action does to an instance.
fn outcome_of(action: Action) -> Outcome {
    match action {
        Action::Replace => Outcome::Replaced,
        Action::Delete => Outcome::Destroyed,
        Action::Forget => Outcome::Forgotten,
        Action::Update | Action::NoOp | Action::Create | Action::Read => Outcome::Updated,
    }
}
