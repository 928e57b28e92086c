//! The command `check`: lists the journals of a folder, and checks whether each continues the one
//! before it.

use std::alloc::Global;
use std::io::{self, Write};
use std::process::ExitCode;
use tfs_files::{
    Choice, CommandEnd, CommandFault, FaultPlace, JournalName, JournalOutline, Numbers, Outlined,
    OutlinedAlone, choose_planned, end_by, numbers_of, outline_alone, outline_here, outline_old,
    plan_of,
};
use tfs_folder::Chosen;
use tfs_journal::End as JournalEnd;
use tfs_table::OpenFault;

/// Prints a line for each journal of a folder, and one for the journal that a start would continue.
/// Returns the program's exit status.
pub(crate) fn run(rt: &HostRuntime, folder: &str) -> ExitCode {
    match check_folder(rt, folder) {
        Ok(()) => ExitCode::SUCCESS,
        Err(end) => end_by(rt, folder, end),
    }
}

/// Checks a folder, and prints the lines. The journals are read in pieces, one after the other, and
/// the last line is about the journal that a start chooses. A single journal is read once.
fn check_folder(rt: &HostRuntime, folder: &str) -> Result<(), CommandEnd> {
    let numbers = numbers_of(rt, folder)?;
    for number in &numbers.old {
        if let Some(outlined) = outline_old(rt, folder, *number)? {
            written(tell_journal(rt, "old/", *number, outlined))?;
        }
    }
    let chosen = check_own(rt, folder, &numbers)?;
    written(tell_choice(rt, &chosen))
}

/// Prints a line for each journal of a folder, except for retired ones. Returns the journal that a
/// start continues.
fn check_own(rt: &HostRuntime, folder: &str, numbers: &Numbers) -> Result<Chosen, CommandEnd> {
    let plan = plan_of(numbers, None)?;
    if let Some(number) = plan.alone() {
        let OutlinedAlone { outlined, choice } = outline_alone(rt, folder, &plan, number)?;
        // A start looks for zeros at the end of a damaged journal.
        if !matches!(outlined, Err(OpenFault::Damaged(_))) {
            written(tell_journal(rt, "", number, outlined))?;
            return choice;
        }
    }
    for number in &numbers.here {
        let outlined = outline_here(rt, folder, *number)?;
        written(tell_journal(rt, "", *number, outlined))?;
    }
    let Choice { chosen, zeros: _ } = choose_planned(rt, folder, &plan, 0)?;
    Ok(chosen)
}

/// Returns the end if the output can't be written.
fn written(outcome: io::Result<()>) -> Result<(), CommandEnd> {
    match outcome {
        Ok(()) => Ok(()),
        Err(_) => Err(CommandEnd::at(FaultPlace::Command, CommandFault::Write)),
    }
}

/// Prints the line of a journal in the folder, or in a folder below it: its base, its position, the
/// number of its names and how it ends, or its error.
fn tell_journal(rt: &HostRuntime, below: &str, number: u64, outlined: Outlined) -> io::Result<()> {
    let name = JournalName(number);
    match outlined {
        Ok(outline) => {
            let JournalOutline {
                base,
                position,
                names,
                end,
                zeros,
            } = outline;
            let end = end_text(rt.alloc(), end, zeros)?;
            println!(rt; "{below}{name}: base {base}, position {position}, {names} names, {end}")
        }
        Err(fault) => println!(rt; "{below}{name}: {fault}"),
    }
}

/// Returns the text for how a journal ends, with this number of zeros after it that a start cuts.
fn end_text(alloc: Global, end: JournalEnd, zeros: u64) -> io::Result<String> {
    match end {
        JournalEnd::Whole if 0 < zeros => {
            Ok(format!(in alloc; "whole before {zeros} bytes of zeros")?)
        }
        JournalEnd::Whole => Ok(String::from_str(alloc, "whole")?),
        JournalEnd::Torn(at) => Ok(format!(in alloc; "torn at byte {at}")?),
        JournalEnd::Damaged(at) => Ok(format!(in alloc; "damaged at byte {at}")?),
    }
}

/// Prints which journal a start would continue.
fn tell_choice(rt: &HostRuntime, chosen: &Chosen) -> io::Result<()> {
    let (name, position) = (JournalName(chosen.number), chosen.table.position());
    if let Some(left) = chosen.left {
        println!(rt; "{} was left by a start that failed", JournalName(left))?;
    }
    println!(rt; "a start continues {name} at position {position}")
}
