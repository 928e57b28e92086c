//! The state document.

ghost use Rattle.std.specs.Prelude.{◌≡◌, ◌≢◌, ◌≤◌, ◌<◌, ◌↔◌, ◌==◌, ◌++◌, Some, IfOk, IfErr, IsTrue, length, option_map, string_bytes};
ghost use Rattle.std.specs.List.{list_any};
ghost use Rattle.std.specs.Str.{IsUtf8};
ghost use Rattle.tfs_state.specs.Dependency.{DependsOn, address_of, config_of};
ghost use Rattle.tfs_state.specs.Digest.{digest_of};
ghost use Rattle.tfs_state.specs.Numbering.{IsNumbering};
ghost use Rattle.tfs_state.specs.StateText.{SpellsDocument, first_state_fault};
ghost use Rattle.tfs_state.specs.Tables.{HasDigests};
ghost use Rattle.tfs_state.specs.declared.fault.StateFault.TheVariants.{NoMemory};

use crate::address::Address;
use crate::content::{Content, read_text};
use crate::fault::StateFault;
use crate::numbers::Numbers;
use crate::packed::{PackedRow, dependencies_at};
use crate::tables::Block;
use json::Scratch;
use std::alloc::Global;
use std::marker::Model;

/// The maximum number of bytes in a state: 16 MiB.
pub const MAX_STATE_BYTES: usize = 16_777_216;

// The definitions have this limit as a number.
const _: () = prove!(MAX_STATE_BYTES == 16_777_216);

/// A state of Terraform's state format, version 4, with its unchanged text.
#[derive(Drop)]
pub struct Doc {
    bytes: Vec<u8>,
    content: Content,
}

impl Model for Doc {
    ghost use Rattle.tfs_state.specs.Document.{Document};
    ghost use Rattle.tfs_state.specs.StateText.{document_given};
    ghost use Rattle.tfs_state.specs.Contents.{Keeps};

    ghost Value = { Document };

    ghost view = { λ d. document_given d.bytes.items };

    ghost invariant = { λ d. Keeps d.bytes.items d.content };
}

impl Doc {
    /// Reads a state's text of at most 16 MiB.
    ///
    /// An error is the first fault of the text, in the order of [`StateFault`], except `NoMemory`,
    /// which means that a request for memory was refused. No memory is requested for bytes that
    /// aren't UTF-8.
    pub fn read(alloc: Global, bytes: Vec<u8>) -> Result<Doc, StateFault>
        requires { length bytes.items ≤ 16777216 }
        ensures ok { IfOk result (SpellsDocument bytes.items) }
        ensures err { IfErr result (λ fault. fault ≢ NoMemory
            → first_state_fault bytes.items ≡ Some fault) }
        ensures memory { IfErr result (λ fault. fault ≡ NoMemory → IsUtf8 bytes.items) }
    {
        Doc::read_over(alloc, bytes, &mut Scratch::new(alloc))
    }

    /// Reads a state's text as [`Doc::read`] does, using memory that is kept between reads.
    pub fn read_over(
        alloc: Global,
        bytes: Vec<u8>,
        scratch: &mut Scratch,
    ) -> Result<Doc, StateFault>
        requires { length bytes.items ≤ 16777216 }
        ensures ok { IfOk result (SpellsDocument bytes.items) }
        ensures err { IfErr result (λ fault. fault ≢ NoMemory
            → first_state_fault bytes.items ≡ Some fault) }
        ensures memory { IfErr result (λ fault. fault ≡ NoMemory → IsUtf8 bytes.items) }
    {
        let content = read_text(alloc, bytes.as_slice(), scratch)?;
        Ok(Doc { bytes, content })
    }

    /// Returns the text, byte for byte as it was read.
    pub fn bytes(&self) -> &[u8]
        ensures value { result.now ≡ self.now.bytes }
        ensures spelled { SpellsDocument self.now.bytes self.now }
    {
        self.bytes.as_slice()
    }

    /// Returns the serial, which counts how often the state was written: a later state of the same
    /// lineage has a higher serial.
    pub fn serial(&self) -> u64
        ensures value { result ≡ self.now.serial }
    {
        self.content.serial
    }

    /// Returns the lineage, the name that all states of one history share, in UTF-8.
    pub fn lineage(&self) -> &str
        ensures value { result.now ≡ self.now.lineage }
    {
        self.content.lineage.as_str()
    }

    /// Returns the number of resource instances in the document, at most 4,096.
    pub fn len(&self) -> usize
        ensures value { result ≡ length self.now.instances }
        ensures limit { result ≤ 4096 }
    {
        self.content.packed.rows.len()
    }

    /// Returns the address of instance `i`.
    pub fn address(&self, i: usize) -> Address<'_>
        requires { i < length self.now.instances }
        ensures value { address_of self.now i ≡ Some result }
    {
        let (row, block) = self.row_and_block(i);
        Address::new(block.front.as_str(), row.tail.as_str(), block.front_digest)
    }

    /// Returns the configuration address of instance `i`.
    pub fn config(&self, i: usize) -> &str
        requires { i < length self.now.instances }
        ensures value { config_of self.now i ≡ Some result.now }
    {
        let (_, block) = self.row_and_block(i);
        block.config.as_str()
    }

    /// Returns the digest of the configuration address of instance `i`.
    pub fn config_digest(&self, i: usize) -> u64
        requires { i < length self.now.instances }
        ensures value { option_map digest_of (config_of self.now i) ≡ Some result }
    {
        let (_, block) = self.row_and_block(i);
        block.config_digest
    }

    /// Returns the row of instance `i` and its block.
    fn row_and_block(&self, i: usize) -> (&PackedRow, &Block)
        requires { i < length self.now.instances }
        ensures address { address_of self.now i
            ≡ Some (string_bytes result.1.now.front ++ string_bytes result.0.now.tail) }
        ensures config { config_of self.now i ≡ Some (string_bytes result.1.now.config) }
        ensures digests { HasDigests result.1.now }
    {
        let row = self.content.row(i);
        let block = self.content.block(row.block);
        (row, block)
    }

    /// Returns the numbers of the instances' configuration addresses and dependencies.
    pub fn numbers(&self) -> Numbers<'_>
        ensures value { IsNumbering self.now result }
    {
        Numbers::new(
            self.content.blocks.as_slice(),
            self.content.packed.rows.as_slice(),
            self.content.packed.numbers.as_slice(),
        )
    }

    /// Returns true if instance `u` depends on instance `v`.
    pub fn depends(&self, u: usize, v: usize) -> bool
        requires u { u < length self.now.instances }
        requires v { v < length self.now.instances }
        ensures value { IsTrue result ↔ DependsOn self.now u v }
    {
        let row = self.content.row(v);
        let block = self.content.block(row.block);
        let other = self.content.row(u);
        let numbers = dependencies_at(self.content.packed.numbers.as_slice(), other);
        has_number(numbers, block.number)
    }
}

/// Returns true if `number` is one of `numbers`.
fn has_number(numbers: &[u32], number: u32) -> bool
    ensures { result ≡ list_any (λ n. n == number) numbers.now }
{
    numbers.contains(&number)
}
