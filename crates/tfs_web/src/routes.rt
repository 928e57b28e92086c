//! The paths of the page's files and of its JSON.

ghost use Rattle.std.specs.Prelude.{◌≡◌, ◌==◌, Some, None, IfOk, IfSome, IfNone};
ghost use Rattle.std.specs.List.{before_first, after_first};
ghost use Rattle.tfs_rules.specs.Name.{IsName};
ghost use Rattle.tfs_web.specs.Routes.{Shows, ShowsWorkspace, file_at, view_at, slash};

use std::alloc::{AllocError, Global};
use tfs_rules::Name;

/// A file of the page.
#[derive(Clone, Copy, Debug, PartialEq, Eq)]
pub enum PageFile {
    /// The page itself.
    Page,
    /// Its styles.
    Styles,
    /// Its script, which imports the others.
    Script,
    /// Requests, and elements of the page.
    Parts,
    /// The view of all workspaces.
    Workspaces,
    /// The view of a workspace.
    Workspace,
    /// The view of an impact.
    Impact,
    /// The layout of a graph.
    Layout,
    /// The picture of a graph.
    Graph,
}

/// What is shown of a workspace.
#[derive(Clone, Copy, Debug, PartialEq, Eq)]
pub enum WorkspaceView {
    /// Its state, its lock and its history.
    History,
    /// The instances that differ between two positions.
    Changes,
    /// The instances of its newest state.
    Instances,
    /// What a change of some instances reaches.
    Impact,
}

/// What a path shows.
#[derive(Drop)]
pub enum WebRoute {
    /// A file of the page.
    File(PageFile),
    /// The workspaces that the user may read.
    Workspaces,
    /// A workspace.
    Workspace(Name, WorkspaceView),
}

/// Returns what a path shows; none if it shows nothing.
pub fn route_of(alloc: Global, path: &str) -> Result<Option<WebRoute>, AllocError>
    ensures found { IfOk result (λ found. IfSome found (Shows path.now)) }
    ensures none { IfOk result (λ found. found ≡ None → (route : _) → ¬ (Shows path.now route)) }
{
    if let Some(file) = file_at(path) {
        return Ok(Some(WebRoute::File(file)));
    }
    if path == "/api/workspaces" {
        return Ok(Some(WebRoute::Workspaces));
    }
    match path.strip_prefix("/api/workspaces/") {
        Some(named) => named_route(alloc, named),
        None => Ok(None),
    }
}

/// Returns the route of a workspace by the part of a path after `/api/workspaces/`.
fn named_route(alloc: Global, named: &str) -> Result<Option<WebRoute>, AllocError>
    ensures found { IfOk result (λ found. IfSome found (ShowsWorkspace named.now)) }
    ensures none { IfOk result (λ found. found ≡ None → (route : _) → ¬ (ShowsWorkspace named.now route)) }
{
    let Some(view) = view_at(tail_in(named)) else {
        return Ok(None);
    };
    match Name::read(String::from_str(alloc, name_in(named))?) {
        Some(name) => Ok(Some(WebRoute::Workspace(name, view))),
        None => Ok(None),
    }
}

/// Returns the text before the first slash.
fn name_in(named: &str) -> &str
    ensures { result.now ≡ before_first (λ byte. byte == slash) named.now }
{
    match named.split_once('/') {
        Some((name, _)) => name,
        None => named,
    }
}

/// Returns the text after the first slash, or an empty text without one.
fn tail_in(named: &str) -> &str
    ensures { result.now ≡ after_first (λ byte. byte == slash) named.now }
{
    match named.split_once('/') {
        Some((_, tail)) => tail,
        None => "",
    }
}

/// Returns the file with this path.
fn file_at(path: &str) -> Option<PageFile>
    ensures { result ≡ file_at path.now }
{
    match path {
        "/" => Some(PageFile::Page),
        "/page.css" => Some(PageFile::Styles),
        "/page.js" => Some(PageFile::Script),
        "/parts.js" => Some(PageFile::Parts),
        "/workspaces.js" => Some(PageFile::Workspaces),
        "/workspace.js" => Some(PageFile::Workspace),
        "/impact.js" => Some(PageFile::Impact),
        "/layout.js" => Some(PageFile::Layout),
        "/graph.js" => Some(PageFile::Graph),
        _ => None,
    }
}

/// Returns the view with this part of a path after the name and its slash.
fn view_at(tail: &str) -> Option<WorkspaceView>
    ensures { result ≡ view_at tail.now }
{
    match tail {
        "" => Some(WorkspaceView::History),
        "changes" => Some(WorkspaceView::Changes),
        "instances" => Some(WorkspaceView::Instances),
        "impact" => Some(WorkspaceView::Impact),
        _ => None,
    }
}
