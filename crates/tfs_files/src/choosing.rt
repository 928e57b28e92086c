//! The choice among the journals of a folder. A start, `check` and `copy` make it by the same
//! functions.

ghost use Rattle.std.specs.Prelude.{◌≡◌, None, Ok, IfOk, OnErr, OnOk};
ghost use Rattle.tfs_folder.specs.Plan.{twice, AreAmong, IsNotPast};

use crate::fault::{CommandEnd, CommandFault, FaultPlace};
use crate::folder::Numbers;
use crate::readers::{Readers, part_readers, path_of, path_of_part, readers_of};
use crate::zeros::{Zeros, limit_of, zeros_of};
use std::fs::File;
use std::io::{self, Read};
use tfs_folder::{
    Chosen, NoChoice, NotPast, StartPlan, Unchosen, choose_alone, choose_beside, plan,
};
use tfs_stream::{ReadFault, Watched};

/// Returns the journals to choose among: the folder's own, except a discarded one.
pub fn plan_of(numbers: &Numbers, past: Option<u64>) -> Result<StartPlan<'_>, CommandEnd>
    ensures among { IfOk result (λ plan. AreAmong past numbers.now.here.items plan.before.now plan.after.now) }
    ensures twice { IfOk result (λ plan. plan.twice ≡ twice numbers.now.here.items numbers.now.old.items) }
    ensures not_past { OnErr result (IsNotPast past numbers.now.here.items) }
{
    match plan(numbers.here.as_slice(), numbers.old.as_slice(), past) {
        Ok(plan) => Ok(plan),
        Err(NotPast) => Err(CommandEnd::at(FaultPlace::Past, CommandFault::NotPast)),
    }
}

/// The journal that a start continues, and the zeros that were cut for the choice, if any.
#[derive(Drop)]
pub struct Choice {
    pub chosen: Chosen,
    pub zeros: Option<Zeros>,
}

/// Chooses the journal that a start continues, among the planned ones. Zeros at the end of a damaged
/// one are cut. Refuses a number that is used twice.
pub fn choose_planned(
    rt: &HostRuntime,
    folder: &str,
    plan: &StartPlan<'_>,
    least: u64,
) -> Result<Choice, CommandEnd>
    ensures once { OnOk result (plan.now.twice ≡ None) }
{
    let choice = match choose_before(rt, folder, plan, least, None) {
        Ok(chosen) => Choice {
            chosen,
            zeros: None,
        },
        Err(end) => choose_again(rt, folder, plan, least, end)?,
    };
    refuse_twice(plan)?;
    Ok(choice)
}

/// Refuses a number of planned journals that is used twice.
pub(crate) fn refuse_twice(plan: &StartPlan<'_>) -> Result<(), CommandEnd>
    ensures once { OnOk result (plan.now.twice ≡ None) }
{
    match plan.twice {
        Some(number) => Err(CommandEnd::at(FaultPlace::Journal(number), CommandFault::TwoOfName)),
        None => Ok(()),
    }
}

/// Chooses again after a choice that ended with a fault: without the zeros at the end of the journal
/// that is damaged. The fault stays if there are none, or if the journals diverge without them.
fn choose_again(
    rt: &HostRuntime,
    folder: &str,
    plan: &StartPlan<'_>,
    least: u64,
    end: CommandEnd,
) -> Result<Choice, CommandEnd> {
    let Some(damage) = end.damage() else {
        return Err(end);
    };
    let path = path_of(rt, folder, damage.number)?;
    let Some(zeros) = zeros_of(rt, folder, path.as_str(), damage)? else {
        return Err(end);
    };
    match choose_before(rt, folder, plan, least, Some(zeros)) {
        Ok(chosen) => Ok(Choice {
            chosen,
            zeros: Some(zeros),
        }),
        Err(again) => Err(end_after(end, again)),
    }
}

/// Returns the end of a choice that ended with a fault, and with another one without zeros.
fn end_after(end: CommandEnd, again: CommandEnd) -> CommandEnd {
    if again.is_diverged() { end } else { again }
}

/// Chooses the journal that a start continues, among the planned ones, without these zeros.
fn choose_before(
    rt: &HostRuntime,
    folder: &str,
    plan: &StartPlan<'_>,
    least: u64,
    zeros: Option<Zeros>,
) -> Result<Chosen, CommandEnd> {
    match plan.alone() {
        Some(number) => choose_only(rt, folder, number, least, limit_of(zeros, number)),
        None => choose_among(rt, readers_of(rt, folder, plan, zeros)?, least),
    }
}

/// Chooses among the part files with these numbers, in the folder `to`, as a start chooses among the
/// journals of the folder `from`.
pub fn choose_parts(
    rt: &HostRuntime,
    from: &str,
    to: &str,
    parts: &[u64],
    least: u64,
) -> Result<Chosen, CommandEnd> {
    let end = match choose_among(rt, part_readers(rt, to, parts, None)?, least) {
        Ok(chosen) => return Ok(chosen),
        Err(end) => end,
    };
    let Some(damage) = end.damage() else {
        return Err(end);
    };
    let path = path_of_part(rt, to, damage.number)?;
    let Some(zeros) = zeros_of(rt, from, path.as_str(), damage)? else {
        return Err(end);
    };
    match choose_among(rt, part_readers(rt, to, parts, Some(zeros))?, least) {
        Ok(chosen) => Ok(chosen),
        Err(again) => Err(end_after(end, again)),
    }
}

/// Chooses among the journals of these readers.
fn choose_among(rt: &HostRuntime, readers: Readers<'_>, least: u64) -> Result<Chosen, CommandEnd> {
    match choose_beside(rt.alloc(), readers, least) {
        Ok(chosen) => Ok(chosen),
        Err(NoChoice::Unchosen(unchosen)) => Err(CommandEnd::choice_failed(unchosen, least)),
        Err(NoChoice::Unread(number, fault)) => Err(unread(FaultPlace::Journal(number), fault)),
    }
}

/// Returns the end if a journal couldn't be read to its end.
fn unread(place: FaultPlace, fault: ReadFault) -> CommandEnd {
    match fault {
        ReadFault::NoMemory => CommandEnd::at(place, CommandFault::OutOfMemory),
        ReadFault::Source | ReadFault::TooLong => CommandEnd::at(place, CommandFault::CannotRead),
    }
}

/// Chooses the folder's journal with this number, which is the only one. At most `limit` first bytes
/// of it are read.
fn choose_only(
    rt: &HostRuntime,
    folder: &str,
    number: u64,
    least: u64,
    limit: u64,
) -> Result<Chosen, CommandEnd> {
    let path = path_of(rt, folder, number)?;
    let front = match File::open(rt, path.as_str()) {
        Ok(file) => Ok(file.take(limit)),
        Err(error) => Err(error),
    };
    chosen_in(rt, front, number, FaultPlace::Journal(number), least)
}

/// Chooses the journal from which a new folder starts: the journal in a file, or an empty one. Its
/// number is 0.
pub(crate) fn choose_first(
    rt: &HostRuntime,
    first: &str,
    least: u64,
) -> Result<Chosen, CommandEnd> {
    let chosen = if first.is_empty() {
        chosen_in(rt, Ok(EMPTY), 0, FaultPlace::First, least)
    } else {
        chosen_in(rt, File::open(rt, first), 0, FaultPlace::First, least)
    };
    chosen.map_err(|end| end.of_first())
}

/// Chooses the only journal, which is read from this reader in pieces.
fn chosen_in<R: Read + Drop>(
    rt: &HostRuntime,
    reader: io::Result<R>,
    number: u64,
    place: FaultPlace,
    least: u64,
) -> Result<Chosen, CommandEnd> {
    let reader = match reader {
        Ok(reader) => reader,
        Err(error) => return Err(CommandEnd::by_system(place, CommandFault::CannotRead, &error)),
    };
    match choose_alone(rt.alloc(), number, &mut Watched::new(reader), least) {
        Ok(read) => choice_of(read.choice, least),
        Err(fault) => Err(unread(place, fault)),
    }
}

/// Returns a choice, or the end if none was made.
pub(crate) fn choice_of(
    choice: Result<Chosen, Unchosen>,
    least: u64,
) -> Result<Chosen, CommandEnd> {
    match choice {
        Ok(chosen) => Ok(chosen),
        Err(unchosen) => Err(CommandEnd::choice_failed(unchosen, least)),
    }
}

/// A journal of format 1 without entries.
const EMPTY: &[u8] = b"TFJ1\n";
