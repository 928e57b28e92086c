//! Builds the index of a state, compared with a plane from pairs that are ready, and answers
//! queries, compared with listing their answers.

ghost use Rattle.std.specs.Prelude.{◌<◌, ◌≤◌, length};

use crate::input::{doc_of, lines_of, split_state};
use crate::measure::Measured;
use crate::planes::{measure_pairs, relate};
use anyhow::{Result, bail};
use std::alloc::{AllocError, Global};
use std::sync::Arc;
use std::time::{Clock, Instant};
use tfs_index::{ImpactFault, Version};
use tfs_planes::Plane;
use tfs_state::Doc;

/// A state with its index, the pairs of its instances in which the second depends on the first, and
/// the addresses of a query.
#[derive(Drop)]
pub(crate) struct Impacts<'a> {
    texts: Vec<&'a str>,
    version: Version,
    pairs: Vec<(u32, u32)>,
}

impl<'a> Impacts<'a> {
    /// Reads the state of the first line, and the addresses of the others.
    pub(crate) fn read(alloc: Global, input: &'a [u8]) -> Result<Impacts<'a>> {
        let (state, addresses) = split_state(input)?;
        let texts = lines_of(alloc, addresses)?;
        let version = version_of(alloc, state)?;
        let pairs = pairs_of(alloc, version.doc())?;
        Ok(Impacts {
            texts,
            version,
            pairs,
        })
    }

    /// Makes the call with this name once.
    pub(crate) fn call(&self, rt: &(impl AllocGlobal + Clock), name: &str) -> Result<Measured> {
        match name {
            "build" => self.build(rt),
            "plane" => self.plane(rt),
            "any" => self.ask(rt, true),
            "all" => self.ask(rt, false),
            "any_listed" => list(
                rt,
                self.version.doc(),
                self.choose(rt.alloc(), true)?.as_slice(),
            ),
            "all_listed" => list(
                rt,
                self.version.doc(),
                self.choose(rt.alloc(), false)?.as_slice(),
            ),
            _ => bail!("the calls are build, plane, any, all, any_listed and all_listed"),
        }
    }

    /// Builds the index. Counts the instances of the state.
    fn build(&self, rt: &(impl AllocGlobal + Clock)) -> Result<Measured> {
        let start = Instant::now(rt)?;
        let version = Version::build(rt.alloc(), self.version.doc().clone()?)?;
        Measured::since(rt, start, version.doc().len())
    }

    /// Makes a plane, fills it from the pairs, and closes it. Counts its pairs.
    fn plane(&self, rt: &(impl AllocGlobal + Clock)) -> Result<Measured> {
        let start = Instant::now(rt)?;
        let plane = closed_plane(rt.alloc(), self.version.doc().len(), self.pairs.as_slice())?;
        measure_pairs(rt, start, &plane)
    }

    /// Chooses the instances that answer a query.
    fn choose(&self, alloc: Global, is_any: bool) -> Result<Vec<usize>, ImpactFault> {
        if is_any {
            return self.version.any(alloc, self.texts.as_slice());
        }
        self.version.all(alloc, self.texts.as_slice())
    }

    /// Answers a query. Counts the chosen instances.
    fn ask(&self, rt: &(impl AllocGlobal + Clock), is_any: bool) -> Result<Measured> {
        let start = Instant::now(rt)?;
        let chosen = self.choose(rt.alloc(), is_any)?;
        Measured::since(rt, start, chosen.len())
    }
}

/// Writes the addresses of an answer one after the other. Counts their bytes.
fn list(rt: &(impl AllocGlobal + Clock), doc: &Doc, chosen: &[usize]) -> Result<Measured> {
    let mut text = String::with_capacity(rt.alloc(), 65_536)?;
    let start = Instant::now(rt)?;
    push_addresses(&mut text, doc, chosen)?;
    Measured::since(rt, start, text.len())
}

/// Returns the version of a state.
fn version_of(alloc: Global, state: &str) -> Result<Version> {
    let doc = doc_of(alloc, state.as_bytes())?;
    Ok(Version::build(alloc, Arc::new(alloc, doc)?)?)
}

/// Returns the pairs (v, u) of instances in which u depends on v.
fn pairs_of(alloc: Global, doc: &Doc) -> Result<Vec<(u32, u32)>, AllocError> {
    let mut pairs = Vec::new(alloc);
    for u in 0..doc.len() {
        push_pairs(doc, u, &mut pairs)?;
    }
    Ok(pairs)
}

/// Adds the pairs of an instance and its dependencies.
fn push_pairs(doc: &Doc, u: usize, pairs: &mut Vec<(u32, u32)>) -> Result<(), AllocError>
    requires { u < length doc.now.instances }
{
    for v in 0..doc.len() {
        if doc.depends(u, v) {
            pairs.push((v as u32, u as u32))?;
        }
    }
    Ok(())
}

/// Returns the closed plane of pairs.
fn closed_plane(alloc: Global, size: usize, pairs: &[(u32, u32)]) -> Result<Plane, AllocError>
    requires { size ≤ 4096 }
{
    let mut plane = Plane::new(alloc, size)?;
    for (v, u) in pairs {
        relate(&mut plane, *v as usize, *u as usize);
    }
    plane.close();
    Ok(plane)
}

/// Appends the addresses of instances.
fn push_addresses(text: &mut String, doc: &Doc, chosen: &[usize]) -> Result<(), AllocError> {
    for u in chosen {
        if *u < doc.len() {
            let (front, tail) = doc.address(*u).parts();
            text.push_str(front)?;
            text.push_str(tail)?;
        }
    }
    Ok(())
}
