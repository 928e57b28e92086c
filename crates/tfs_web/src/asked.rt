//! What a request asks for: its route with its parameters.

ghost use Rattle.std.specs.Prelude.{◌≡◌, ◌++◌, ◌∷◌, [], IfOk, IfErr, IfSome, OnOk, map, string_bytes};
ghost use Rattle.form_urlencoded.specs.Parse.{raw_pairs_left};
ghost use Rattle.tfs_web.specs.Asked.{IsAskedAt, IsQuestionOf, IsRefusedAt, all_values, decoded};
ghost use Rattle.tfs_web.specs.declared.routes.WorkspaceView.TheVariants.{Changes, Impact};
ghost use Rattle.std.specs.Cow.{cow_str_bytes};
ghost use Rattle.std.specs.Str.{bytes_eq};
ghost use Rattle.form_urlencoded.specs.Form as form;

use crate::refusal::WebRefusal;
use crate::routes::{PageFile, WebRoute, WorkspaceView, route_of};
use form_urlencoded::{RawPairs, decode, raw_pairs};
use std::alloc::{AllocError, Global};
use tfs_rules::Name;

/// What a request asks for.
#[derive(Drop)]
pub enum Asked {
    /// A file of the page.
    File(PageFile),
    /// The workspaces that the user may read.
    Workspaces,
    /// Something about a workspace.
    Workspace(Name, Question),
}

/// What a request asks about a workspace.
#[derive(Drop)]
pub enum Question {
    /// The state, the lock and the history.
    History,
    /// The instances that differ between two positions.
    Changes(u64, u64),
    /// The instances of the newest state.
    Instances,
    /// What a change of each of these addresses reaches (if true), or of at least one of them.
    Impact(bool, Vec<String>),
}

/// Returns what a request for a path asks for with this query. Refuses a path that shows nothing,
/// and a parameter that is missing or invalid.
pub fn asked_of(
    alloc: Global,
    path: &str,
    query: &str,
) -> Result<Result<Asked, WebRefusal>, AllocError>
    ensures ok { IfOk result (λ found. IfOk found (IsAskedAt path.now)) }
    ensures err { IfOk result (λ found. IfErr found (IsRefusedAt path.now)) }
{
    match route_of(alloc, path)? {
        None => Ok(Err(WebRefusal::NoRoute)),
        Some(WebRoute::File(file)) => Ok(Ok(Asked::File(file))),
        Some(WebRoute::Workspaces) => Ok(Ok(Asked::Workspaces)),
        Some(WebRoute::Workspace(name, view)) => match question_of(alloc, view, query)? {
            Some(question) => Ok(Ok(Asked::Workspace(name, question))),
            None => Ok(Err(WebRefusal::BadQuery)),
        },
    }
}

/// Returns what a view of a workspace asks with this query; none if a parameter is missing or
/// invalid.
fn question_of(
    alloc: Global,
    view: WorkspaceView,
    query: &str,
) -> Result<Option<Question>, AllocError>
    ensures { IfOk result (λ question. IfSome question (IsQuestionOf view)) }
{
    match view {
        WorkspaceView::History => Ok(Some(Question::History)),
        WorkspaceView::Instances => Ok(Some(Question::Instances)),
        WorkspaceView::Changes => changes_asked(alloc, query),
        WorkspaceView::Impact => impact_asked(alloc, query),
    }
}

/// Returns the question for the changes between the positions `from` and `to`.
fn changes_asked(alloc: Global, query: &str) -> Result<Option<Question>, AllocError>
    ensures { IfOk result (λ question. IfSome question (IsQuestionOf Changes)) }
{
    let from = position_in(alloc, query, "from")?;
    let to = position_in(alloc, query, "to")?;
    match (from, to) {
        (Some(from), Some(to)) => Ok(Some(Question::Changes(from, to))),
        _ => Ok(None),
    }
}

/// Returns the question for the impact of the addresses `address`, by the kind `any` or `all`.
fn impact_asked(alloc: Global, query: &str) -> Result<Option<Question>, AllocError>
    ensures { IfOk result (λ question. IfSome question (IsQuestionOf Impact)) }
{
    let kinds = values_of(alloc, query, "kind")?;
    match is_all(kinds.as_slice()) {
        Some(is_all) => {
            let addresses = values_of(alloc, query, "address")?;
            Ok(Some(Question::Impact(is_all, addresses)))
        }
        None => Ok(None),
    }
}

/// Returns true for the kind `all`, false for `any`, and none without exactly one of them.
fn is_all(kinds: &[String]) -> Option<bool> {
    let [kind] = kinds else {
        return None;
    };
    match kind.as_str() {
        "any" => Some(false),
        "all" => Some(true),
        _ => None,
    }
}

/// Returns the position that a parameter names, if it has exactly one value.
fn position_in(alloc: Global, query: &str, name: &str) -> Result<Option<u64>, AllocError> {
    let values = values_of(alloc, query, name)?;
    let [value] = values.as_slice() else {
        return Ok(None);
    };
    match value.as_str().parse::<u64>() {
        Ok(position) => Ok(Some(position)),
        Err(_) => Ok(None),
    }
}

/// Returns the values of all parameters with this name, in order, decoded as form data (URL
/// Standard, section 5).
fn values_of(alloc: Global, query: &str, name: &str) -> Result<Vec<String>, AllocError>
    ensures { IfOk result (λ values. map string_bytes values.items
        ≡ all_values name.now (form.raw_pairs query.now)) }
{
    values_in(alloc, raw_pairs(query.as_bytes()), name)
}

/// Returns the values of all pairs with this name, decoded.
fn values_in(alloc: Global, pairs: RawPairs<'_>, called: &str) -> Result<Vec<String>, AllocError>
    ensures { IfOk result (λ values. map string_bytes values.items
        ≡ all_values called.now (raw_pairs_left pairs.entry)) }
{
    let mut values = Vec::new(alloc);
    for (name, value) in pairs {
        if is_called(alloc, name, called)? {
            push_value(alloc, &mut values, value)?;
        }
    }
    Ok(values)
}

/// Adds a value, decoded.
fn push_value(alloc: Global, values: &mut Vec<String>, value: &[u8]) -> Result<(), AllocError>
    ensures { OnOk result (map string_bytes values.new.items
        ≡ map string_bytes values.old.items ++ decoded value.now ∷ []) }
{
    values.push(decode_value(alloc, value)?)?;
    Ok(())
}

/// Decodes the value of a pair.
fn decode_value(alloc: Global, value: &[u8]) -> Result<String, AllocError>
    ensures { IfOk result (λ text. string_bytes text ≡ decoded value.now) }
{
    decode(alloc, value)?.into_owned(alloc)
}

/// Returns true if the decoded name of a pair is this text.
fn is_called(alloc: Global, name: &[u8], called: &str) -> Result<bool, AllocError>
    ensures { IfOk result (λ same. same ≡ bytes_eq (decoded name.now) called.now) }
{
    Ok(decode(alloc, name)?.as_str() == called)
}
