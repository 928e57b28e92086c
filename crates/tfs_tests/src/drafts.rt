//! Names, changes and queries for the state in which `t.b` depends on `t.a`, and `t.c` on `t.b`.

use std::alloc::Global;
use std::process::Abort;
use tfs_calls::{Bytes, Draft, Kind, Query, Raw, Text, Texts};
use tfs_rules::Name;
use tfs_state::MAX_STATE_BYTES;

/// The resources of the chain, with one instance each.
const FIRST: &str =
    r#"{"mode":"managed","type":"t","name":"a","instances":[{"dependencies":["x.y"]}]}"#;

const SECOND: &str =
    r#"{"mode":"managed","type":"t","name":"b","instances":[{"dependencies":["t.a"]}]}"#;

const THIRD: &str =
    r#"{"mode":"managed","type":"t","name":"c","instances":[{"dependencies":["t.b"]}]}"#;

/// Returns the name `a`.
pub(crate) fn name_of(rt: &(impl Alloc<A = Global> + Abort)) -> Name {
    let text = String::from_str(rt.alloc(), "a").ok().expect(rt, "a text");
    Name::read(text).expect(rt, "a name")
}

/// Returns the chain with this serial.
pub(crate) fn chain_of(rt: &(impl Alloc<A = Global> + Abort), serial: u64) -> String {
    let text = format!(in rt.alloc();
        "{{\"version\":4,\"serial\":{serial},\"lineage\":\"L1\",\"resources\":[{FIRST},{SECOND},{THIRD}]}}"
    );
    text.ok().expect(rt, "a state")
}

/// Returns the push of the chain with this serial.
pub(crate) fn push_of(rt: &(impl Alloc<A = Global> + Abort), serial: u64) -> Draft {
    let text = chain_of(rt, serial);
    push_of_text(rt, text.as_str())
}

/// The resource `a` of the cycle, which depends on the chain's `b`.
const CLOSING: &str =
    r#"{"mode":"managed","type":"t","name":"a","instances":[{"dependencies":["t.b"]}]}"#;

/// Returns the push of two instances that depend on each other, with serial 1.
pub(crate) fn circle(rt: &(impl Alloc<A = Global> + Abort)) -> Draft {
    let text = format!(in rt.alloc();
        "{{\"version\":4,\"serial\":1,\"lineage\":\"L1\",\"resources\":[{CLOSING},{SECOND}]}}"
    );
    let text = text.ok().expect(rt, "a state");
    push_of_text(rt, text.as_str())
}

/// Returns the push of a state.
pub(crate) fn push_of_text(rt: &(impl Alloc<A = Global> + Abort), text: &str) -> Draft {
    let bytes = text.as_bytes().to_vec(rt.alloc()).ok().expect(rt, "bytes");
    assert!(rt; bytes.len() <= MAX_STATE_BYTES);
    let draft = Draft::read(rt.alloc(), Raw::Push(None, Bytes::new(bytes)));
    draft.ok().expect(rt, "a draft")
}

/// Returns a lock by `B`.
pub(crate) fn lock_of(rt: &(impl Alloc<A = Global> + Abort)) -> Draft {
    let bytes = br#"{"ID":"B"}"#.to_vec(rt.alloc()).ok().expect(rt, "bytes");
    let draft = Draft::read(rt.alloc(), Raw::Lock(Bytes::new(bytes)));
    draft.ok().expect(rt, "a draft")
}

/// Returns a query of a kind for what `t.a` reaches.
pub(crate) fn query_of(rt: &(impl Alloc<A = Global> + Abort), kind: Kind) -> Query {
    let text = String::from_str(rt.alloc(), "t.a")
        .ok()
        .expect(rt, "a text");
    let mut texts = Vec::new(rt.alloc());
    assert!(rt; texts.push(Text::new(text)).is_ok());
    Query {
        kind,
        texts: Texts::new(texts),
    }
}
