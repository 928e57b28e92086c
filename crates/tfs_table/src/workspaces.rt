//! Searching and changing workspaces by their names.

ghost use Rattle.std.specs.Prelude.{◌≡◌, ◌≢◌, ◌∷◌, [], ◌++◌, ◌<◌, ◌⊎◌, All, length, None, Some, option_map, vec_len};
ghost use Rattle.std.specs.Prelude.{IfOk, IfErr, IfSome, is_some, OnOk, OnErr, slice_get, vec_capacity, false};
ghost use Rattle.std.specs.List.{find};
ghost use Rattle.std.specs.Arc.{arc_value};
ghost use Rattle.std.specs.Result.{MatchResult};
ghost use Rattle.tfs_rules.specs.Act.{act_value};
ghost use Rattle.tfs_rules.specs.History.{state_of};
ghost use Rattle.tfs_rules.specs.Verdict.{verdict_over};
ghost use Rattle.tfs_rules.specs.declared.verdict.Verdict.TheVariants.{Accept};
ghost use Rattle.tfs_records.specs.Journal.{Journal, acts_of, names_of, with_entry};
ghost use Rattle.tfs_calls.specs.Refusal.{refusal_value, out_of_memory, no_state};
ghost use Rattle.tfs_table.specs.Workspaces.{is_of, has_number, standing_at, Rise, IsPlaceOf, IsGapFor, IsFound, AreWorkspacesOf, HasVersion};

use crate::workspace::Workspace;
use std::cmp::Ordering;
use std::sync::Arc;
use tfs_calls::Refusal;
use tfs_index::Version;
use tfs_lock::LockInfo;
use tfs_rules::{Act, Name, Record};
use tfs_state::Doc;

/// Returns the index of the workspace of a name or, if it has none, the index at which one keeps
/// the names rising.
pub(crate) fn place_of(workspaces: &[Workspace], name: &Name) -> Result<usize, usize>
    requires { Rise workspaces.now }
    ensures { IsFound name.now workspaces.now result }
{
    let name = name.text();
    let mut low = 0;
    let mut high = workspaces.len();
    while low < high {
        let middle = low + (high - low) / 2;
        match workspaces[middle].name.text().cmp(&name) {
            Ordering::Less => low = middle + 1,
            Ordering::Equal => return Ok(middle),
            Ordering::Greater => high = middle,
        }
    }
    Err(low)
}

/// Commits an accepted act to the workspace of a name, which is created if there is none. The
/// caller has reserved room for it.
pub(crate) fn commit_at(
    workspaces: &mut Vec<Workspace>,
    place: Result<usize, usize>,
    name: Name,
    act: Act,
    version: Option<Arc<Version>>,
)
    requires found { IsFound name workspaces.old.items place }
    requires accepted { verdict_over (standing_at name workspaces.old.items) (act_value act) ≡ Accept }
    requires room { vec_len workspaces.old < vec_capacity workspaces.old }
    ensures committed { (j : Journal) → AreWorkspacesOf j workspaces.old.items
        → AreWorkspacesOf (with_entry j (record { name = name; act = act_value act })) workspaces.new.items }
    ensures versions { (j : Journal) → AreWorkspacesOf j workspaces.old.items → All HasVersion workspaces.old.items
        → option_map arc_value version ≡ state_of (acts_of name (with_entry j (record { name = name; act = act_value act })))
        → All HasVersion workspaces.new.items }
{
    match place {
        Ok(place) => {
            let workspace = &mut workspaces[place];
            workspace.standing.commit(act);
            workspace.version = version;
        }
        Err(place) => {
            let mut standing = Record::empty();
            standing.commit(act);
            let workspace = Workspace {
                name,
                number: workspaces.len(),
                standing,
                version,
            };
            workspaces.insert(place, workspace).unwrap();
        }
    }
}

/// Returns the state of a name.
pub(crate) fn state_at(workspaces: &[Workspace], name: &Name) -> Result<Arc<Doc>, Refusal>
    requires { Rise workspaces.now }
    ensures found { IfOk result (λ doc. (standing_at name.now workspaces.now).state ≡ Some (arc_value doc)) }
    ensures absent { IfErr result (λ refusal. (refusal_value refusal ≡ out_of_memory)
        ⊎ ((refusal_value refusal ≡ no_state) × ((standing_at name.now workspaces.now).state ≡ None))) }
    ensures memory { IfErr result (λ refusal. refusal_value refusal ≡ out_of_memory → (standing_at name.now workspaces.now).state ≢ None) }
{
    let Ok(place) = place_of(workspaces, name) else {
        return Err(Refusal::NoState);
    };
    match workspaces[place].standing.state() {
        Some(doc) => Ok(doc.clone()?),
        None => Err(Refusal::NoState),
    }
}

/// Returns the holder of a name.
pub(crate) fn holder_at<'w>(workspaces: &'w [Workspace], name: &Name) -> Option<&'w Arc<LockInfo>>
    requires { Rise workspaces.now }
    ensures { option_map (λ info. arc_value info.now) result ≡ (standing_at name.now workspaces.now).holder }
{
    match place_of(workspaces, name) {
        Ok(place) => workspaces[place].standing.holder(),
        Err(_) => None,
    }
}

/// Returns the version of the state of a name.
pub(crate) fn version_of<'w>(workspaces: &'w [Workspace], name: &Name) -> Option<&'w Arc<Version>>
    requires rise { Rise workspaces.now }
    requires versions { All HasVersion workspaces.now }
    ensures value { option_map (λ version. arc_value version.now) result ≡ (standing_at name.now workspaces.now).state }
{
    match place_of(workspaces, name) {
        Ok(place) => match &workspaces[place].version {
            Some(version) => Some(version),
            None => None,
        },
        Err(_) => None,
    }
}

/// Returns the name with this number.
pub(crate) fn name_at(workspaces: &[Workspace], number: usize) -> Option<&Name>
    ensures { (j : Journal) → AreWorkspacesOf j workspaces.now → option_map (λ name. name.now) result ≡ slice_get (names_of j) number }
{
    match workspace_at(workspaces, number) {
        Some(workspace) => Some(&workspace.name),
        None => None,
    }
}

/// Returns the workspace with this number.
fn workspace_at(workspaces: &[Workspace], number: usize) -> Option<&Workspace>
    ensures { option_map (λ workspace. workspace.now) result ≡ find (has_number number) workspaces.now }
{
    workspaces
        .iter()
        .find(|workspace| workspace.number == number)
}

/// Returns the number of a name.
pub(crate) fn number_of(workspaces: &[Workspace], name: &Name) -> Option<usize>
    requires { Rise workspaces.now }
    ensures found { IfSome result (λ number. (j : Journal) → AreWorkspacesOf j workspaces.now
        → slice_get (names_of j) number ≡ Some name.now) }
    ensures known { is_some result ≡ is_some (find (is_of name.now) workspaces.now) }
{
    match place_of(workspaces, name) {
        Ok(place) => Some(workspaces[place].number),
        Err(_) => None,
    }
}
