//! Access files: what each user may do with which workspaces. nginx reads the same file.

ghost use Rattle.std.specs.Prelude.{◌≡◌, ◌↔◌, ◌++◌, codes, IsTrue, IfOk, string_bytes};
ghost use Rattle.std.specs.List.{list_all};
ghost use Rattle.tfs_web.specs.Access.{IsUser, MayRead, is_user_byte, patterns_of, reads_by, subject_of, user_of};

use crate::pattern::pattern_in;
use regex::{RegexSet, SetMatcher};
use std::alloc::{AllocError, Global};
use tfs_rules::Name;

/// The patterns of an access file: regular expressions over USER:METHOD:NAME. Who matches one may
/// do this.
#[derive(Drop)]
pub struct Access {
    patterns: RegexSet,
}

/// Why an access file isn't used.
#[derive(Clone, Copy, Debug, PartialEq, Eq)]
pub enum AccessFault {
    /// The line with this number, from 1, isn't understood.
    Line(usize),
    /// A pattern isn't a regular expression, or is too large.
    Pattern,
    /// A request for memory was refused.
    NoMemory,
}

impl From<AllocError> for AccessFault {
    fn from(_error: AllocError) -> AccessFault {
        AccessFault::NoMemory
    }
}

impl Access {
    /// Reads an access file: each line is empty, a comment, or a pattern and a 1, as in
    /// `"~^auditor:GET:" 1;`.
    pub fn read(alloc: Global, text: &str) -> Result<Access, AccessFault> {
        let mut sources = Vec::new(alloc);
        for (index, line) in text.lines().enumerate() {
            add_pattern(&mut sources, line, index)?;
        }
        match RegexSet::new(alloc, sources.as_slice()) {
            Ok(patterns) => Ok(Access { patterns }),
            Err(_) => Err(AccessFault::Pattern),
        }
    }

    /// Returns what a user may read.
    pub fn reader<'a>(&'a self, alloc: Global, user: &'a str) -> Result<UserReader<'a>, AllocError>
        ensures patterns { IfOk result (λ reader. reads_by reader ≡ patterns_of self.now) }
        ensures user { IfOk result (λ reader. user_of reader ≡ user.now) }
    {
        let matcher = self.patterns.matcher(alloc)?;
        Ok(UserReader { user, matcher })
    }
}

/// Adds the pattern of a line, if it has one.
fn add_pattern<'t>(
    sources: &mut Vec<&'t str>,
    line: &'t str,
    index: usize,
) -> Result<(), AccessFault> {
    let line = line.trim();
    if line.is_empty() || line.starts_with('#') {
        return Ok(());
    }
    match pattern_in(line) {
        Some(pattern) => match sources.push(pattern) {
            Ok(()) => Ok(()),
            Err(_) => Err(AccessFault::NoMemory),
        },
        None => Err(AccessFault::Line(index.saturating_add(1))),
    }
}

/// What a user may read by an access file.
#[derive(Drop)]
pub struct UserReader<'a> {
    user: &'a str,
    matcher: SetMatcher<'a>,
}

impl<'a> UserReader<'a> {
    /// Returns true if the user may read a workspace: a pattern matches USER:GET:NAME.
    pub fn may_read(&mut self, alloc: Global, name: &Name) -> Result<bool, AllocError>
        ensures value { IfOk result (λ may. IsTrue may
            ↔ MayRead (reads_by self.old) (user_of self.old) name.now) }
        ensures patterns { reads_by self.new ≡ reads_by self.old }
        ensures user { user_of self.new ≡ user_of self.old }
    {
        let subject = subject_of(alloc, self.user, name)?;
        Ok(self.matcher.is_match(subject.as_str()))
    }
}

/// Returns the text that patterns are matched with: USER:GET:NAME.
fn subject_of(alloc: Global, user: &str, name: &Name) -> Result<String, AllocError>
    ensures { IfOk result (λ text. string_bytes text ≡ subject_of user.now name.now) }
{
    let mut text = String::from_str(alloc, user)?;
    text.push_str(":GET:")?;
    text.push_str(name.text())?;
    Ok(text)
}

/// Returns true if a text is a user's name: 1 to 64 ASCII letters, digits and `._@+-`.
pub fn is_user(text: &str) -> bool
    ensures value { IsTrue result ↔ IsUser text.now }
{
    !text.is_empty() && text.len() <= 64 && has_user_bytes(text)
}

/// Returns true if each byte may be part of a user's name.
fn has_user_bytes(text: &str) -> bool
    ensures { result ≡ list_all is_user_byte text.now }
{
    text.bytes().all(is_user_byte)
}

/// Returns true if a byte may be part of a user's name.
fn is_user_byte(byte: u8) -> bool
    ensures { result ≡ is_user_byte byte }
{
    byte.is_ascii_alphanumeric()
        || (byte == b'.' || (byte == b'_' || (byte == b'@' || (byte == b'+' || byte == b'-'))))
}
