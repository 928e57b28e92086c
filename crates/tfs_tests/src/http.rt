//! Calls of requests that no message has, and replies that no conversation over pipes gives.

use std::alloc::Global;
use std::process::Abort;
use std::sync::Arc;
use tfs_calls::{Chosen, Impact, Refusal, Reply};
use tfs_framing::{Form, Request};
use tfs_http::{Routes, call_of, write_reply};
use tfs_index::Version;
use tfs_state::{Doc, MAX_STATE_BYTES};

/// Checks that a read of this target has no route.
fn has_no_route(rt: &(impl Alloc<A = Global> + Abort), routes: &Routes, target: &[u8]) {
    let request = Request::new(rt.alloc(), b"GET", target, Vec::new(rt.alloc()));
    let request = request.ok().expect(rt, "memory");
    let refusal = call_of(rt.alloc(), routes, request).err();
    assert!(rt; matches!(refusal, Some(Refusal::NoRoute)));
}

#[test]
fn a_target_that_is_no_text_has_no_route(rt: HostRuntime) {
    let routes = Routes::new(rt.alloc()).ok().expect(&rt, "memory");
    has_no_route(&rt, &routes, b"/state/\xff");
    has_no_route(&rt, &routes, b"/state/a?\xff");
}

/// Checks that the text of a reply is appended to the existing bytes.
fn expect_text(rt: &(impl Alloc<A = Global> + Abort), reply: &Reply, close: bool, text: &str) {
    let mut out = b"before".to_vec(rt.alloc()).expect(rt, "memory");
    let written = write_reply(rt.alloc(), reply, Form { close, bare: false }, &mut out);
    assert!(rt; written.is_ok());
    let (before, behind) = out.as_slice().split_at(out.len().min(6));
    assert!(rt; before == b"before".as_slice() && behind == text.as_bytes());
}

#[test]
fn a_fault_of_the_journal_is_reported(rt: HostRuntime) {
    let fault = Reply::Refused(Refusal::JournalFault);
    let text =
        "HTTP/1.1 500 Internal Server Error\r\nContent-Type: application/json\r\nContent-Length: 24\r\n\r\n{\"error\":\"JournalFault\"}";
    expect_text(&rt, &fault, false, text);
}

/// Three instances: the second depends on the first, and the third on the second.
const CHAIN: &str = "{\"version\":4,\"serial\":2,\"lineage\":\"L\",\"resources\":[\
     {\"mode\":\"managed\",\"type\":\"t\",\"name\":\"a\",\"instances\":[{\"dependencies\":[\"x.y\"]}]},\
     {\"mode\":\"managed\",\"type\":\"t\",\"name\":\"b\",\"instances\":[{\"dependencies\":[\"t.a\"]}]},\
     {\"mode\":\"managed\",\"type\":\"t\",\"name\":\"c\",\"instances\":[{\"dependencies\":[\"t.b[3]\"]}]}]}";

/// Returns the version of a state.
fn version_of(rt: &(impl Alloc<A = Global> + Abort), text: &str) -> Arc<Version> {
    assert!(rt; text.len() <= MAX_STATE_BYTES);
    let bytes = text.as_bytes().to_vec(rt.alloc()).expect(rt, "memory");
    let doc = Doc::read(rt.alloc(), bytes).ok().expect(rt, "a state");
    let doc = Arc::new(rt.alloc(), doc).ok().expect(rt, "memory");
    let version = Version::build(rt.alloc(), doc).ok().expect(rt, "memory");
    Arc::new(rt.alloc(), version).ok().expect(rt, "memory")
}

/// Checks that the first of three instances reaches the last one, which reaches none.
fn is_chain(rt: &impl Abort, version: &Version) {
    assert!(rt; version.doc().len() == 3);
    assert!(rt; version.reaches(0, 2) && !version.reaches(2, 0));
}

#[test]
fn a_number_of_no_instance_is_left_out(rt: HostRuntime) {
    let version = version_of(&rt, CHAIN);
    is_chain(&rt, &version);
    let chosen = Vec::from_slice(rt.alloc(), &[2, 3, 0]).expect(&rt, "memory");
    let reply = Reply::Impact(Impact {
        version,
        chosen: Chosen::new(chosen),
        position: 18_446_744_073_709_551_615,
    });
    let text = "HTTP/1.1 200 OK\r\nConnection: close\r\nContent-Type: application/json\r\n\
         Content-Length: 70\r\n\r\n{\"instances\":[\"t.c\",\"t.a\"],\"position\":18446744073709551615,\"serial\":2}";
    expect_text(&rt, &reply, true, text);
}
