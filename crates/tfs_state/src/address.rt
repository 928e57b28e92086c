//! The address of an instance.

ghost use Rattle.std.specs.Prelude.{◌≡◌, ◌≤◌, ◌++◌, ◌↔◌, IsTrue, length};
ghost use Rattle.std.specs.Cmp.Lexicographic.{slice_cmp};
ghost use Rattle.std.specs.Ordering.{nat_cmp};
ghost use Rattle.tfs_state.specs.Digest.{digest_of};

use crate::digest::longer_digest;
use std::cmp::Ordering;
use std::fmt;
use std::marker::Model;

/// The address of an instance, borrowed in two parts: the beginning, which all instances of its
/// resource share, and the rest. `digest` is the digest of the first part.
#[derive(Drop)]
pub struct Address<'a> {
    front: &'a str,
    tail: &'a str,
    digest: u64,
}

impl<'a> Model for Address<'a> {
    ghost use Rattle.std.specs.Prelude.{◌≡◌, ℕ, List, ◌++◌};
    ghost use Rattle.tfs_state.specs.Digest.{digest_of};

    ghost Value = { List ℕ };

    ghost view = { λ a. a.front.now ++ a.tail.now };

    ghost invariant = { λ a. a.digest ≡ digest_of a.front.now };
}

impl<'a> Address<'a> {
    /// Creates the address of two parts. `digest` is the digest of the first.
    pub(crate) fn new(front: &'a str, tail: &'a str, digest: u64) -> Address<'a>
        requires { digest ≡ digest_of front.now }
        ensures { result ≡ front.now ++ tail.now }
    {
        Address {
            front,
            tail,
            digest,
        }
    }

    /// Returns the two parts, whose concatenation is the address.
    pub fn parts(&self) -> (&'a str, &'a str)
        ensures value { result.0.now ++ result.1.now ≡ self.now }
    {
        (self.front, self.tail)
    }

    /// Returns true if the address equals the text.
    pub fn is(&self, text: &str) -> bool
        ensures value { IsTrue result ↔ (self.now ≡ text.now) }
    {
        match text.as_bytes().strip_prefix(self.front.as_bytes()) {
            Some(rest) => rest == self.tail.as_bytes(),
            None => false,
        }
    }

    /// Returns the digest of the address. Takes time linear in the length of the second part.
    pub fn digest(&self) -> u64
        ensures value { result ≡ digest_of self.now }
    {
        longer_digest(self.front, self.digest, self.tail)
    }
}

impl<'a> Address<'a> {
    /// Compares two addresses by their bytes.
    pub fn cmp(&self, other: &Address<'_>) -> Ordering
        ensures value { result ≡ slice_cmp nat_cmp self.now other.now }
    {
        order(
            self.front.as_bytes(),
            self.tail.as_bytes(),
            other.front.as_bytes(),
            other.tail.as_bytes(),
        )
    }

    /// Compares the address with a text by their bytes.
    pub fn cmp_text(&self, text: &str) -> Ordering
        ensures value { result ≡ slice_cmp nat_cmp self.now text.now }
    {
        order_to_one(self.front.as_bytes(), self.tail.as_bytes(), text.as_bytes())
    }
}

/// Compares two texts, each given in two parts.
fn order(front: &[u8], tail: &[u8], other: &[u8], rest: &[u8]) -> Ordering
    ensures { result ≡ slice_cmp nat_cmp (front.now ++ tail.now) (other.now ++ rest.now) }
{
    if front.len() <= other.len() {
        order_from_shorter(front, tail, other, rest)
    } else {
        order_from_shorter(other, rest, front, tail).reverse()
    }
}

/// Compares two texts, each given in two parts. The first part of the first text isn't longer than
/// the first part of the second.
fn order_from_shorter(front: &[u8], tail: &[u8], other: &[u8], rest: &[u8]) -> Ordering
    requires { length front.now ≤ length other.now }
    ensures { result ≡ slice_cmp nat_cmp (front.now ++ tail.now) (other.now ++ rest.now) }
{
    let (start, middle) = other.split_at(front.len());
    let later = order_to_one(middle, rest, tail).reverse();
    front.cmp(&start).then(later)
}

/// Compares a text given in two parts with a whole one.
fn order_to_one(front: &[u8], tail: &[u8], text: &[u8]) -> Ordering
    ensures { result ≡ slice_cmp nat_cmp (front.now ++ tail.now) text.now }
{
    if text.len() < front.len() {
        return front.cmp(&text);
    }
    let (start, rest) = text.split_at(front.len());
    front.cmp(&start).then(tail.cmp(&rest))
}

impl<'a> fmt::Display for Address<'a> {
    ghost use Rattle.std.specs.Prelude.{Some};

    ghost output = { λ a. Some a };

    fn fmt<W: fmt::Write>(&self, f: &mut fmt::Formatter<W>) -> fmt::Result {
        f.write_str(self.front)?;
        f.write_str(self.tail)
    }
}
