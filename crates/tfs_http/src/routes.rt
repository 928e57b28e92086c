//! Routing of requests to calls.

ghost use Rattle.std.specs.Prelude.{◌≡◌, ◌≢◌, ℕ, List, [], codes, Contains, IfOk, IfErr, IfSome, IfNone, OnOk};
ghost use Rattle.tfs_calls.specs.declared.call.Call.TheVariants.{Impact};
ghost use Rattle.tfs_calls.specs.declared.refusal.Methods.TheVariants.{State};
ghost use Rattle.tfs_rules.specs.Name.{IsName};
ghost use Rattle.tfs_calls.specs.declared.refusal.Refusal.TheVariants.{OutOfMemory};
ghost use Rattle.tfs_http.specs.Query.{texts_parameter};
ghost use Rattle.tfs_http.specs.Routing.{path_of, Route, IsPathOf, HasRoute, IsTaken, IsSound, IsOneOf, HasCall, methods_of, routing_refusal, routes as all_routes};
ghost use Rattle.tfs_http.specs.Routing.{route_of};
ghost use Rattle.tfs_http.specs.Asked.{method_text, state_identifier, state_call};
ghost use Rattle.tfs_http.specs.Rows.{route_rows};

use crate::query::{identifier_parameter, texts_parameter};
use matchit::{InsertError, Router};
use std::alloc::{AllocError, Global};
use std::marker::Model;
use std::str;
use tfs_calls::{Bytes, Call, Kind, Methods, Query, Raw, Refusal, Text, Texts};
use tfs_framing::Request;
use tfs_rules::{Name, is_name};

/// What a route serves.
#[derive(Clone, Copy)]
pub(crate) enum Served {
    /// The state of a workspace.
    State,
    /// The impact of changes in a workspace.
    Impact(Kind),
}

/// The routes of the server: `/state/{name}`, `/impact/{name}/any` and `/impact/{name}/all`.
#[derive(Drop)]
pub struct Routes {
    router: Router<Served>,
}

impl Model for Routes {
    ghost use Rattle.std.specs.Prelude.{◌≡◌, List};
    ghost use Rattle.tfs_http.specs.Routing.{Route, routes};
    ghost use Rattle.tfs_http.specs.Rows.{route_rows};

    ghost Value = { List Route };

    ghost view = { λ _. routes };

    ghost invariant = { λ r. r.router ≡ route_rows };
}

impl Routes {
    /// Creates the routes. Fails only if memory is refused.
    pub fn new(alloc: Global) -> Result<Routes, AllocError>
        ensures value { IfOk result (λ routes. routes ≡ all_routes) }
    {
        match build(alloc) {
            Ok(router) => Ok(Routes { router }),
            Err(_) => Err(AllocError),
        }
    }

    /// Finds the route of a path. Returns what it serves, and the part of the path for `{name}`.
    fn find<'p>(&self, path: &'p str) -> Option<(Served, &'p str)>
        ensures found { IfSome result (λ found. IsPathOf (route_of found.0) path.now found.1.now) }
        ensures absent { IfNone result ((route : Route) (part : List ℕ) → Contains all_routes route → ¬ (IsPathOf route path.now part)) }
    {
        let Ok(found) = self.router.at(path) else {
            return None;
        };
        match found.params.get("name") {
            Some(part) => Some((*found.value, part)),
            None => None,
        }
    }
}

/// Creates a router with the routes.
fn build(alloc: Global) -> Result<Router<Served>, InsertError>
    ensures { IfOk result (λ router. router ≡ route_rows) }
{
    let mut router = Router::new(alloc);
    insert_routes(&mut router)?;
    Ok(router)
}

/// Adds the routes to an empty router.
fn insert_routes(router: &mut Router<Served>) -> Result<(), InsertError>
    requires { router.old ≡ [] }
    ensures { OnOk result (router.new ≡ route_rows) }
{
    router.insert("/state/{name}", Served::State)?;
    router.insert("/impact/{name}/any", Served::Impact(Kind::Any))?;
    router.insert("/impact/{name}/all", Served::Impact(Kind::All))?;
    Ok(())
}

/// Returns the call of a request, or its first refusal in numerical order. Allocates memory only if
/// there is no such refusal; if memory is refused, returns `OutOfMemory`.
pub fn call_of(alloc: Global, routes: &Routes, request: Request) -> Result<Call, Refusal>
    ensures ok { IfOk result (HasCall request) }
    ensures err { IfErr result (λ refusal. refusal ≢ OutOfMemory → routing_refusal request refusal) }
    ensures memory { IfErr result (λ refusal. refusal ≡ OutOfMemory
        → (route : Route) × (part : List ℕ) × IsSound request route part) }
{
    let Some((served, target, part)) = route_target(routes, request.target()) else {
        return Err(Refusal::NoRoute);
    };
    let method = sound_method(&request, served, part)?;
    match served {
        Served::Impact(kind) => read_query(alloc, kind, target, part),
        Served::State => {
            let asked = read_asked(alloc, method, target, part)?;
            Ok(asked.with_body(request.into_body()))
        }
    }
}

/// Finds the route of a target. Returns what it serves, the target as text, and the part of its
/// path for the name.
fn route_target<'t>(routes: &Routes, target: &'t [u8]) -> Option<(Served, &'t str, &'t str)>
    ensures found { IfSome result (λ found. (found.1.now ≡ target.now) × HasRoute target.now (route_of found.0) found.2.now) }
    ensures absent { IfNone result ((route : Route) (part : List ℕ) → ¬ (HasRoute target.now route part)) }
{
    let Ok(text) = str::from_utf8(target) else {
        return None;
    };
    let (served, part) = routes.find(path_of(text))?;
    Some((served, text, part))
}

/// Returns the text before the query.
fn path_of(target: &str) -> &str
    ensures { result.now ≡ path_of target.now }
{
    match target.split_once('?') {
        Some((path, _)) => path,
        None => target,
    }
}

/// A method for a state.
#[derive(Clone, Copy)]
enum Method {
    Get,
    Post,
    Delete,
    Lock,
    Unlock,
}

/// Returns the method with exactly this text (RFC 9110, section 9.1).
fn method_of(text: &[u8]) -> Option<Method>
    ensures found { IfSome result (λ method. text.now ≡ method_text method) }
    ensures absent { IfNone result (¬ (IsOneOf text.now (methods_of State))) }
{
    match text {
        b"GET" => Some(Method::Get),
        b"POST" => Some(Method::Post),
        b"DELETE" => Some(Method::Delete),
        b"LOCK" => Some(Method::Lock),
        b"UNLOCK" => Some(Method::Unlock),
        _ => None,
    }
}

/// Returns the method with this text if the route accepts it, or the methods that the route
/// accepts.
fn taken_method(served: Served, text: &[u8]) -> Result<Method, Methods>
    ensures ok { IfOk result (λ method. (text.now ≡ method_text method) × IsOneOf text.now (methods_of (route_of served).methods)) }
    ensures err { IfErr result (λ methods. (methods ≡ (route_of served).methods) × ¬ (IsOneOf text.now (methods_of methods))) }
{
    match served {
        Served::State => method_of(text).ok_or(Methods::State),
        Served::Impact(_) => {
            if text == b"GET".as_slice() {
                Ok(Method::Get)
            } else {
                Err(Methods::Impact)
            }
        }
    }
}

/// Returns the method of a request whose target has a route. Refuses a method that the route
/// doesn't accept, then a part that isn't a valid name, then a body that doesn't have the stated
/// digest. Allocates no memory.
fn sound_method(request: &Request, served: Served, part: &str) -> Result<Method, Refusal>
    requires { HasRoute request.now.target (route_of served) part.now }
    ensures ok { IfOk result (λ method. (request.now.method ≡ method_text method) × IsSound request.now (route_of served) part.now) }
    ensures err { IfErr result (λ refusal. refusal ≢ OutOfMemory × routing_refusal request.now refusal) }
{
    let method = match taken_method(served, request.method()) {
        Ok(method) => method,
        Err(methods) => return Err(Refusal::MethodNotAllowed(methods)),
    };
    if !is_name(part) {
        return Err(Refusal::BadName);
    }
    if !request.is_intact() {
        return Err(Refusal::BadDigest);
    }
    Ok(method)
}

/// A request for a state, without its body: the method, the name, and the identifier if the method
/// takes one.
#[derive(Drop)]
struct Asked {
    method: Method,
    name: Name,
    id: Option<Text>,
}

impl Asked {
    /// Returns the call with this body.
    fn with_body(self, body: Bytes) -> Call
        ensures { result ≡ state_call self.method self.name self.id body }
    {
        match self.method {
            Method::Get => Call::Read(self.name),
            Method::Post => Call::Change(self.name, Raw::Push(self.id, body)),
            Method::Delete => Call::Change(self.name, Raw::Delete(self.id)),
            Method::Lock => Call::Change(self.name, Raw::Lock(body)),
            Method::Unlock => Call::Change(self.name, Raw::Unlock(body, self.id)),
        }
    }
}

/// Reads the request for the state of this name, with this method and target.
fn read_asked(alloc: Global, method: Method, target: &str, part: &str) -> Result<Asked, Refusal>
    requires { IsName part.now }
    ensures ok { IfOk result (λ asked. asked ≡ record { method = method; name = part.now; id = state_identifier method target.now }) }
    ensures err { IfErr result (λ refusal. refusal ≡ OutOfMemory) }
{
    let name = read_name(alloc, part)?;
    let id = read_identifier(alloc, method, target)?;
    Ok(Asked { method, name, id })
}

/// Reads the impact query for the state of this name, with this target.
fn read_query(alloc: Global, kind: Kind, target: &str, part: &str) -> Result<Call, Refusal>
    requires { IsName part.now }
    ensures ok { IfOk result (λ call. call ≡ Impact part.now (record { kind = kind; texts = texts_parameter target.now })) }
    ensures err { IfErr result (λ refusal. refusal ≡ OutOfMemory) }
{
    let name = read_name(alloc, part)?;
    let texts = read_texts(alloc, target)?;
    Ok(Call::Impact(name, Query { kind, texts }))
}

/// Copies a part that is a valid name.
fn read_name(alloc: Global, part: &str) -> Result<Name, Refusal>
    requires { IsName part.now }
    ensures ok { IfOk result (λ name. name ≡ part.now) }
    ensures err { IfErr result (λ refusal. refusal ≡ OutOfMemory) }
{
    match Name::read(String::from_str(alloc, part)?) {
        Some(name) => Ok(name),
        None => unreachable!(),
    }
}

/// Returns the parameter `ID` of a target, even if it is empty, or `None` if the method takes none.
fn read_identifier(alloc: Global, method: Method, target: &str) -> Result<Option<Text>, Refusal>
    ensures ok { IfOk result (λ id. id ≡ state_identifier method target.now) }
    ensures err { IfErr result (λ refusal. refusal ≡ OutOfMemory) }
{
    if matches!(method, Method::Get | Method::Lock) {
        return Ok(None);
    }
    match identifier_parameter(alloc, target) {
        Ok(Some(id)) => Ok(Some(Text::new(id))),
        Ok(None) => Ok(None),
        Err(_) => Err(Refusal::OutOfMemory),
    }
}

/// Returns the parameters `of` of a target.
fn read_texts(alloc: Global, target: &str) -> Result<Texts, Refusal>
    ensures ok { IfOk result (λ texts. texts ≡ texts_parameter target.now) }
    ensures err { IfErr result (λ refusal. refusal ≡ OutOfMemory) }
{
    Ok(texts_parameter(alloc, target)?)
}
