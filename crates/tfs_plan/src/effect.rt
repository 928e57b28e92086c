//! What the changes of a plan do to instances of the state.

ghost use Rattle.std.specs.Prelude.{◌≡◌, ◌++◌, ◌∷◌, [], filter, length, if◌then◌else◌, IfOk, OnOk};
ghost use Rattle.std.specs.List.{range_with_len};
ghost use Rattle.tfs_plan.specs.Effects.{has_action, has_effect, has_effect_at};

use crate::action::Action;
use crate::change::Change;
use std::alloc::{AllocError, Global};

/// What a change does. Changes of deposed objects have no effect: what depends on an instance
/// depends on its current object.
#[derive(Clone, Copy, Debug)]
pub enum Effect {
    /// The instance goes away: it is destroyed, replaced or forgotten.
    Removal,
    /// The instance is updated in place, and not only in ignored attributes.
    Update,
    /// The instance is created.
    Creation,
}

/// Returns the indexes of the changes with an effect, in ascending order.
pub fn changes_with(
    alloc: Global,
    changes: &[Change],
    effect: Effect,
) -> Result<Vec<usize>, AllocError>
    ensures value { IfOk result (λ places. places.items
        ≡ filter (has_effect_at effect changes.now) (range_with_len 0 (length changes.now))) }
{
    let mut places = Vec::new(alloc);
    for i in 0..changes.len() {
        push_if(&mut places, i, has_effect_at(effect, changes, i))?;
    }
    Ok(places)
}

/// Appends a number if it passes a test.
pub(crate) fn push_if(numbers: &mut Vec<usize>, n: usize, passes: bool) -> Result<(), AllocError>
    ensures { OnOk result (numbers.new.items
        ≡ (if passes then numbers.old.items ++ n ∷ [] else numbers.old.items)) }
{
    if passes {
        numbers.push(n)?;
    }
    Ok(())
}

/// Returns true if there is a change at an index, and it has an effect.
fn has_effect_at(effect: Effect, changes: &[Change], i: usize) -> bool
    ensures { result ≡ has_effect_at effect changes.now i }
{
    match changes.get(i) {
        Some(change) => has_effect(effect, change),
        None => false,
    }
}

/// Returns true if a change has an effect.
fn has_effect(effect: Effect, change: &Change) -> bool
    ensures { result ≡ has_effect effect change.now }
{
    if change.is_deposed() || change.is_ignored() {
        return false;
    }
    has_action(effect, change.action())
}

/// Returns true if an action has an effect.
fn has_action(effect: Effect, action: Action) -> bool
    ensures { result ≡ has_action effect action }
{
    match effect {
        Effect::Removal => { matches!(action, Action::Delete | Action::Replace | Action::Forget) }
        Effect::Update => matches!(action, Action::Update),
        Effect::Creation => matches!(action, Action::Create),
    }
}
