//! Reads a state, compared with reading a JSON value from the same bytes.

use crate::input::doc_of;
use crate::measure::Measured;
use anyhow::{Result, bail};
use serde_json::Value;
use std::time::{Clock, Instant};
use tfs_state::{Doc, MAX_STATE_BYTES};

/// The text of a state.
#[derive(Clone, Copy)]
pub(crate) struct StateText<'a> {
    pub(crate) text: &'a str,
}

impl StateText<'_> {
    /// Makes the call with this name once.
    pub(crate) fn call(
        &self,
        rt: &(impl AllocGlobal + Clock + Print),
        name: &str,
    ) -> Result<Measured> {
        match name {
            "document" => self.document(rt),
            "value" => self.value(rt),
            "tree" => self.tree(rt),
            "keep" => self.keep(rt),
            _ => bail!("the calls are document, value, tree and keep"),
        }
    }

    /// Reads a document, which is dropped after the measurement. Counts its instances.
    fn document(&self, rt: &(impl AllocGlobal + Clock)) -> Result<Measured> {
        if MAX_STATE_BYTES < self.text.len() {
            bail!("the state is too long");
        }
        let bytes = self.text.as_bytes().to_vec(rt.alloc())?;
        let start = Instant::now(rt)?;
        let doc = Doc::read(rt.alloc(), bytes)?;
        Measured::since(rt, start, doc.len())
    }

    /// Reads a JSON value, and drops it.
    fn value(&self, rt: &(impl AllocGlobal + Clock)) -> Result<Measured> {
        let start = Instant::now(rt)?;
        drop(Value::from_str(rt.alloc(), self.text)?);
        Measured::since(rt, start, self.text.len())
    }

    /// Reads a JSON value, which is dropped after the measurement.
    fn tree(&self, rt: &(impl AllocGlobal + Clock)) -> Result<Measured> {
        let start = Instant::now(rt)?;
        let _value = Value::from_str(rt.alloc(), self.text)?;
        Measured::since(rt, start, self.text.len())
    }

    /// Prints a line with the number of bytes before a document is read, and one with the number of
    /// instances while it is in memory.
    fn keep(&self, rt: &(impl AllocGlobal + Print)) -> Result<Measured> {
        Measured::print_count(rt, "state", self.text.len())?;
        let doc = doc_of(rt.alloc(), self.text.as_bytes())?;
        Measured::print_count(rt, "state", doc.len())
    }
}
