//! The body of an impact's reply. Its length is computed in advance, and it is produced in pieces.

ghost use Rattle.std.specs.Prelude.{◌≡◌, ◌<◌, ◌≤◌, ◌+◌, ◌^◌, ℕ, List, [], ◌++◌, false, IsTrue, IfOk, length, vec_len};
ghost use Rattle.std.specs.Arc.{arc_value};
ghost use Rattle.tfs_state.specs.Dependency.{address_of};
ghost use Rattle.tfs_escapes.specs.Room.{HasRoom};
ghost use Rattle.tfs_http.specs.Pieces.{addresses_left, ending_text, place_text, with_address};
ghost use Rattle.tfs_http.specs.ReplyText.{impact_body};

use crate::pieces::{BegunText, BodyPlace, tell_addresses};
use itoa::Buffer;
use std::alloc::{AllocError, Global};
use std::marker::Model;
use tfs_calls::Impact;
use tfs_escapes::{escaped_len, tell};
use tfs_index::Version;
use tfs_state::Doc;

/// Room for the end of the body, after the addresses: two numbers of at most 20 digits, and their
/// names.
const ENDING_BYTES: usize = 80;

/// The rest of the body of an impact's reply. Contracts see its bytes.
#[derive(Drop)]
pub struct ImpactBody<'r> {
    version: &'r Version,
    place: BodyPlace<'r>,
    /// The end of the body, after the addresses, and how many bytes of it were produced.
    ending: Vec<u8>,
    told: usize,
}

impl<'r> Model for ImpactBody<'r> {
    ghost use Rattle.std.specs.Prelude.{◌≤◌, ℕ, List, ◌++◌, drop, vec_len};
    ghost use Rattle.tfs_http.specs.Pieces.{place_text};

    ghost Value = { List ℕ };

    ghost view = { λ b. place_text b.version.now b.place ++ drop b.told b.ending.items };

    ghost invariant = { λ b. b.told ≤ vec_len b.ending };
}

impl<'r> ImpactBody<'r> {
    /// Creates the whole body. Allocates memory only for its end, with the position and the serial.
    pub fn new(alloc: Global, answer: &'r Impact) -> Result<ImpactBody<'r>, AllocError>
        ensures value { IfOk result (λ body. body
            ≡ impact_body (arc_value answer.now.version) answer.now.chosen answer.now.position) }
    {
        let version: &'r Version = &answer.version;
        let ending = ending(alloc, answer.position, version.doc().serial())?;
        Ok(ImpactBody {
            version,
            place: BodyPlace {
                begun: BegunText::plain(b"{\"instances\":["),
                later: false,
                numbers: answer.chosen.as_slice(),
            },
            ending,
            told: 0,
        })
    }

    /// Returns the number of bytes that are left.
    pub fn len(&self) -> u128
        ensures value { result ≡ length self.now }
        ensures limit { result < 2 ^ 127 + 2 ^ 69 }
    {
        let (_, behind) = self.ending.as_slice().split_at(self.told);
        place_len(self.version.doc(), self.place) + behind.len() as u128
    }

    /// Appends bytes to a vector until it has `limit` bytes or none are left, and returns true if
    /// none are left. The vector must have capacity for `limit` bytes; no memory is allocated.
    pub fn fill(&mut self, limit: usize, out: &mut Vec<u8>) -> bool
        requires { HasRoom out.old limit }
        ensures joined { out.new.items ++ self.new ≡ out.old.items ++ self.old }
        ensures room { HasRoom out.new limit }
        ensures whole { IsTrue result → self.new ≡ [] }
        ensures full { result ≡ false → vec_len out.new ≡ limit }
    {
        self.place = tell_addresses(self.version, self.place, limit, out);
        if !self.place.begun.plain.is_empty() {
            return false;
        }
        let ending = self.ending.as_slice();
        let (_, behind) = ending.split_at(self.told);
        let left = tell(behind, limit, out);
        self.told = ending.len() - left.len();
        left.is_empty()
    }
}

/// Returns the number of bytes of the addresses that are left.
#[tactic(auto, using(crate::proofs::PieceLemmas::place_counted))]
fn place_len(doc: &Doc, place: BodyPlace<'_>) -> u128
    ensures value { result ≡ length (place_text doc.now place.entry) }
    ensures limit { result < 2 ^ 127 + 2 ^ 68 }
{
    let begun = place.begun.plain.len() as u128
        + escaped_len(place.begun.front)
        + escaped_len(place.begun.tail);
    begun + addresses_len(doc, place.later, place.numbers)
}

/// Returns the number of bytes that are left of the addresses of these instances.
fn addresses_len(doc: &Doc, later: bool, numbers: &[usize]) -> u128
    ensures value { result ≡ length (addresses_left doc.now later numbers.now) }
    ensures limit { result ≤ 2 ^ 127 }
{
    let mut begun = later;
    let mut total = 0;
    for number in numbers {
        if *number < doc.len() {
            total += address_len(doc, begun, *number);
            begun = true;
        }
    }
    if begun { total + 1 } else { total }
}

/// Returns the length of an address in the body, with the bytes before it.
fn address_len(doc: &Doc, later: bool, number: usize) -> u128
    requires { number < length doc.now.instances }
    ensures value { (without behind : List ℕ)
        → length (with_address later (address_of doc.now number) without behind) ≡ result + length behind }
    ensures limit { result < 2 ^ 67 }
{
    let (front, tail) = doc.address(number).parts();
    let before = if later { 3 } else { 1 };
    before + escaped_len(front.as_bytes()) + escaped_len(tail.as_bytes())
}

/// Returns the end of the body, after the addresses.
fn ending(alloc: Global, position: u64, serial: u64) -> Result<Vec<u8>, AllocError>
    ensures { IfOk result (λ text. text.items ≡ ending_text position serial) }
{
    let mut digits = Buffer::new();
    let mut text = Vec::with_capacity(alloc, ENDING_BYTES)?;
    text.extend_from_slice(b"],\"position\":")?;
    text.extend_from_slice(digits.format(position).as_bytes())?;
    text.extend_from_slice(b",\"serial\":")?;
    text.extend_from_slice(digits.format(serial).as_bytes())?;
    text.extend_from_slice(b"}")?;
    Ok(text)
}
