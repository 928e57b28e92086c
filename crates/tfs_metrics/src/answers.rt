//! Counts of answered requests.

ghost use Rattle.std.specs.Prelude.{◌≡◌, ◌<◌, [], length, position, set, slice_index_or, OnOk, OnErr, IfSome};
ghost use Rattle.tfs_calls.specs.Refusal.{refusal_value};
ghost use Rattle.tfs_calls.specs.Reply.{refused, reply_value};
ghost use Rattle.tfs_metrics.specs.declared.kind.Kind.TheVariants.{Other};
ghost use Rattle.tfs_metrics.specs.Answers.{AnswersRow, IsRowOf, is_same, with_row, duration_added, no_durations, number_of};

use crate::durations::Durations;
use crate::kind::Kind;
use std::alloc::{AllocError, Global};
use tfs_calls::{Refusal, Reply};

/// The number of answers of one kind with the same status and refusal.
#[derive(Clone, Copy, Debug)]
pub struct AnswersRow {
    pub kind: Kind,
    /// The HTTP status (RFC 9110, section 15).
    pub status: u16,
    /// The name of the refusal; empty if the request was accepted.
    pub refusal: &'static str,
    pub count: u64,
}

impl AnswersRow {
    /// Returns the row of one answer.
    fn of(kind: Kind, reply: &Reply) -> AnswersRow
        ensures row { IsRowOf kind (reply_value reply.now) result }
    {
        match reply {
            Reply::Done(_) | Reply::State(_) | Reply::Impact(_) => AnswersRow {
                kind,
                status: 200,
                refusal: "",
                count: 1,
            },
            Reply::Refused(refusal) => AnswersRow::of_refusal(kind, refusal),
        }
    }

    /// Returns the row of one refusal.
    fn of_refusal(kind: Kind, refusal: &Refusal) -> AnswersRow
        ensures row { IsRowOf kind (refused (refusal_value refusal.now)) result }
    {
        AnswersRow {
            kind,
            status: refusal.status(),
            refusal: refusal.name(),
            count: 1,
        }
    }

    /// Returns true if both rows count answers of the same kind with the same status and refusal.
    fn is_same(&self, other: &AnswersRow) -> bool
        ensures same { result ≡ is_same self.now other.now }
    {
        self.kind.number() == other.kind.number()
            && self.status == other.status
            && self.refusal == other.refusal
    }
}

/// The numbers of answered requests, and their durations by kind. A number that would be 2^64 or
/// more stays at 2^64 - 1.
#[derive(Drop)]
pub struct Answers {
    rows: Vec<AnswersRow>,
    durations: [Durations; 7],
}

impl Answers {
    /// Makes counts of no answer.
    pub fn new(alloc: Global) -> Answers
        ensures rows { result.rows.items ≡ [] }
    {
        Answers {
            rows: Vec::new(alloc),
            durations: [Durations::NONE; 7],
        }
    }

    /// Counts an answer to a request of a kind, which took this many microseconds. Without memory
    /// for a new row, counts nothing.
    pub fn add(&mut self, kind: Kind, reply: &Reply, micros: u64) -> Result<(), AllocError>
        ensures rows { OnOk result ((row : AnswersRow) × IsRowOf kind (reply_value reply.now) row × (self.new.rows.items ≡ with_row row self.old.rows.items)) }
        ensures durations { OnOk result (self.new.durations ≡ set self.old.durations (number_of kind)
            (duration_added micros (slice_index_or self.old.durations (number_of kind) no_durations))) }
        ensures err { OnErr result ((self.new.rows.items ≡ self.old.rows.items) × (self.new.durations ≡ self.old.durations)) }
    {
        add_row(&mut self.rows, &AnswersRow::of(kind, reply))?;
        self.durations[kind.number()].add(micros);
        Ok(())
    }

    /// Counts a request that was refused before it became a call. Without memory for a new row,
    /// counts nothing.
    pub fn refuse(&mut self, refusal: &Refusal) -> Result<(), AllocError>
        ensures rows { OnOk result ((row : AnswersRow) × IsRowOf Other (refused (refusal_value refusal.now)) row × (self.new.rows.items ≡ with_row row self.old.rows.items)) }
        ensures err { OnErr result (self.new.rows.items ≡ self.old.rows.items) }
        ensures durations { self.new.durations ≡ self.old.durations }
    {
        add_row(
            &mut self.rows,
            &AnswersRow::of_refusal(Kind::Other, refusal),
        )
    }

    /// Returns the rows, in the order of their first answers.
    pub fn rows(&self) -> &[AnswersRow]
        ensures rows { result.now ≡ self.now.rows.items }
    {
        self.rows.as_slice()
    }

    /// Returns the durations of the requests of a kind.
    pub fn durations(&self, kind: Kind) -> &Durations
        ensures durations { result.now ≡ slice_index_or self.now.durations (number_of kind) no_durations }
    {
        &self.durations[kind.number()]
    }
}

/// Adds the count of a row to the row of the same answers, or appends it if there is none.
fn add_row(rows: &mut Vec<AnswersRow>, row: &AnswersRow) -> Result<(), AllocError>
    ensures rows { OnOk result (rows.new.items ≡ with_row row.now rows.old.items) }
    ensures err { OnErr result (rows.new.items ≡ rows.old.items) }
{
    let Some(place) = place_of(rows.as_slice(), row) else {
        return Ok(rows.push(*row)?);
    };
    rows[place].count = rows[place].count.saturating_add(row.count);
    Ok(())
}

/// Returns the number of the first row of the same answers.
fn place_of(rows: &[AnswersRow], row: &AnswersRow) -> Option<usize>
    ensures first { result ≡ position (λ one. is_same one row.now) rows.now }
    ensures small { IfSome result (λ place. place < length rows.now) }
{
    rows.iter().position(|one| one.is_same(row))
}
