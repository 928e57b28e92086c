//! Pictures of dependencies, in the language DOT of Graphviz.

ghost use Rattle.std.specs.Prelude.{◌≡◌, ◌<◌, ◌++◌, All, length, filter, nat_lt, IfOk, OnOk};
ghost use Rattle.std.specs.List.{flat_map};
ghost use Rattle.tfs_index.specs.Reach.{depends_on};
ghost use Rattle.tfs_versions.specs.Picture.{picture_text, pair_of, pairs_from, pairs_among, node_line, edge_line, quoted, escaped};

use std::alloc::{AllocError, Global};
use tfs_state::Doc;

/// Returns the picture of some instances of a document, which are given by their numbers: a line
/// for each instance, filled if it is chosen, and a line for each pair of them whose first depends
/// on the second. Numbers beyond the last instance are left out.
pub fn picture(
    alloc: Global,
    doc: &Doc,
    among: &[usize],
    chosen: &[usize],
) -> Result<Vec<u8>, AllocError>
    ensures value { IfOk result (λ text. text.items
        ≡ picture_text doc.now (filter (λ u. nat_lt u (length doc.now.instances)) among.now) chosen.now) }
{
    let among = within(alloc, doc, among)?;
    let pairs = pairs_among(alloc, doc, among.as_slice())?;
    let mut text = Vec::from_slice(alloc, b"digraph {\n")?;
    push_nodes(&mut text, doc, among.as_slice(), chosen)?;
    push_edges(&mut text, doc, pairs.as_slice())?;
    text.extend_from_slice(b"}\n")?;
    Ok(text)
}

/// Returns the numbers that belong to an instance.
fn within(alloc: Global, doc: &Doc, numbers: &[usize]) -> Result<Vec<usize>, AllocError>
    ensures value { IfOk result (λ own. own.items ≡ filter (λ u. nat_lt u (length doc.now.instances)) numbers.now) }
    ensures within { IfOk result (λ own. All (λ u. u < length doc.now.instances) own.items) }
{
    let mut own = Vec::new(alloc);
    for number in numbers {
        if *number < doc.len() {
            own.push(*number)?;
        }
    }
    Ok(own)
}

/// Returns the pairs of these instances whose first depends on the second.
fn pairs_among(alloc: Global, doc: &Doc, among: &[usize]) -> Result<Vec<(usize, usize)>, AllocError>
    requires { All (λ u. u < length doc.now.instances) among.now }
    ensures value { IfOk result (λ pairs. pairs.items ≡ pairs_among doc.now among.now) }
    ensures within { IfOk result (λ pairs. All (λ p. (p.0 < length doc.now.instances) × (p.1 < length doc.now.instances)) pairs.items) }
{
    let mut pairs = Vec::new(alloc);
    for u in among {
        push_pairs(&mut pairs, doc, *u, among)?;
    }
    Ok(pairs)
}

/// Appends the pairs of an instance and each of `among` that it depends on.
fn push_pairs(
    pairs: &mut Vec<(usize, usize)>,
    doc: &Doc,
    u: usize,
    among: &[usize],
) -> Result<(), AllocError>
    requires own { u < length doc.now.instances }
    requires others { All (λ v. v < length doc.now.instances) among.now }
    requires before { All (λ p. (p.0 < length doc.now.instances) × (p.1 < length doc.now.instances)) pairs.old.items }
    ensures value { OnOk result (pairs.new.items ≡ pairs.old.items ++ pairs_from doc.now u among.now) }
    ensures within { All (λ p. (p.0 < length doc.now.instances) × (p.1 < length doc.now.instances)) pairs.new.items }
{
    for v in among {
        push_pair(pairs, doc, u, *v)?;
    }
    Ok(())
}

/// Appends the pair of two instances if the first depends on the second.
fn push_pair(
    pairs: &mut Vec<(usize, usize)>,
    doc: &Doc,
    u: usize,
    v: usize,
) -> Result<(), AllocError>
    requires u { u < length doc.now.instances }
    requires v { v < length doc.now.instances }
    requires before { All (λ p. (p.0 < length doc.now.instances) × (p.1 < length doc.now.instances)) pairs.old.items }
    ensures value { OnOk result (pairs.new.items ≡ pairs.old.items ++ pair_of doc.now u v) }
    ensures within { All (λ p. (p.0 < length doc.now.instances) × (p.1 < length doc.now.instances)) pairs.new.items }
{
    if depends(doc, u, v) {
        pairs.push((u, v))?;
    }
    Ok(())
}

/// Returns true if instance `u` depends on instance `v`.
fn depends(doc: &Doc, u: usize, v: usize) -> bool
    requires u { u < length doc.now.instances }
    requires v { v < length doc.now.instances }
    ensures { result ≡ depends_on doc.now u v }
{
    doc.depends(u, v)
}

/// Appends the lines of instances.
fn push_nodes(
    text: &mut Vec<u8>,
    doc: &Doc,
    among: &[usize],
    chosen: &[usize],
) -> Result<(), AllocError>
    requires { All (λ u. u < length doc.now.instances) among.now }
    ensures { OnOk result (text.new.items ≡ text.old.items ++ flat_map (node_line doc.now chosen.now) among.now) }
{
    for u in among {
        push_node(text, doc, *u, chosen)?;
    }
    Ok(())
}

/// Appends the line of an instance.
fn push_node(text: &mut Vec<u8>, doc: &Doc, u: usize, chosen: &[usize]) -> Result<(), AllocError>
    requires { u < length doc.now.instances }
    ensures { OnOk result (text.new.items ≡ text.old.items ++ node_line doc.now chosen.now u) }
{
    text.extend_from_slice(b"  ")?;
    push_quoted(text, doc, u)?;
    if chosen.contains(&u) {
        text.extend_from_slice(b" [style=filled];\n")
    } else {
        text.extend_from_slice(b";\n")
    }
}

/// Appends the lines of pairs.
fn push_edges(text: &mut Vec<u8>, doc: &Doc, pairs: &[(usize, usize)]) -> Result<(), AllocError>
    requires { All (λ p. (p.0 < length doc.now.instances) × (p.1 < length doc.now.instances)) pairs.now }
    ensures { OnOk result (text.new.items ≡ text.old.items ++ flat_map (edge_line doc.now) pairs.now) }
{
    for pair in pairs {
        push_edge(text, doc, pair.0, pair.1)?;
    }
    Ok(())
}

/// Appends the line of a pair.
fn push_edge(text: &mut Vec<u8>, doc: &Doc, u: usize, v: usize) -> Result<(), AllocError>
    requires u { u < length doc.now.instances }
    requires v { v < length doc.now.instances }
    ensures { OnOk result (text.new.items ≡ text.old.items ++ edge_line doc.now (u, v)) }
{
    text.extend_from_slice(b"  ")?;
    push_quoted(text, doc, u)?;
    text.extend_from_slice(b" -> ")?;
    push_quoted(text, doc, v)?;
    text.extend_from_slice(b";\n")
}

/// Appends the address of an instance in quotes.
fn push_quoted(text: &mut Vec<u8>, doc: &Doc, u: usize) -> Result<(), AllocError>
    requires { u < length doc.now.instances }
    ensures { OnOk result (text.new.items ≡ text.old.items ++ quoted doc.now u) }
{
    let address = doc.address(u);
    let (front, tail) = address.parts();
    text.push(b'"')?;
    push_escaped(text, front.as_bytes())?;
    push_escaped(text, tail.as_bytes())?;
    text.push(b'"')?;
    Ok(())
}

/// Appends bytes, with quotes, backslashes and line feeds escaped.
fn push_escaped(text: &mut Vec<u8>, bytes: &[u8]) -> Result<(), AllocError>
    ensures { OnOk result (text.new.items ≡ text.old.items ++ flat_map escaped bytes.now) }
{
    for byte in bytes {
        push_byte(text, *byte)?;
    }
    Ok(())
}

/// Appends a byte, escaped if necessary.
fn push_byte(text: &mut Vec<u8>, byte: u8) -> Result<(), AllocError>
    ensures { OnOk result (text.new.items ≡ text.old.items ++ escaped byte) }
{
    match byte {
        34 => text.extend_from_slice(b"\\\""),
        92 => text.extend_from_slice(b"\\\\"),
        10 => text.extend_from_slice(b"\\n"),
        _ => text.extend_from_slice(&[byte]),
    }
}
