//! The program's commands, and their conversion for the command line parser.

use crate::argument::Argument;
use crate::arguments::{
    ACROSS, ACT, ADDRESSES, ALL, ANSWER_ONLY, BYTES, COMPACT_BYTES, COMPACT_ENTRIES, COPIES, DOT,
    FIRST, FIRST_POSITION, FROM, HELD, IGNORE, JOURNALS, JSON, KEEP, KEEP_BYTES, KEEP_DAYS, LAST,
    LEAST, LEAST_FILE, LEAST_OF_COPIES, LINES, LISTEN, MARKDOWN, MERMAID, METRICS, NEW, PAST, PLAN,
    POSITION, QUERY, SECOND_POSITION, SERVE_READS, SERVED, SERVED_UNLESS_PLAN, SINCE,
    SOME_POSITION, STATE, TO, UNTIL, URL, VALUES, WHO, WORKERS, WORKSPACE, WORKSPACE_OF_FOLDER,
    WORKSPACE_OR_ALL, WORKSPACE_UNLESS_PLAN,
};
use crate::proxy_arguments::{ADDRESS_HEADER, USER_HEADER};
use crate::web_arguments::{ACCESS, LISTEN_LOCALLY, PAGE, USER_OF_PAGE};
use clap::{Arg, Command};
use std::alloc::{AllocError, Global};

/// The version in the file VERSION, and the kit that proves the program.
const VERSION: &str = "0.2.0 (rattle-kit-13f logic dac8208d650f15bf)";

/// What the exit statuses mean.
const STATUSES: &str =
    "Status: 0 success; 20 temporary fault: try again; 21 invalid arguments; 22 torn base; 23 damaged; 24 unlawful; 25 no journal, or \
diverged journals; 26 below the least position; 27 no folder, or permission denied; 28 out of memory; 29 the journal can't be written: try again; \
30 no such workspace; 31 no state; 32 no such position; 33 another lineage; 34 no next serial; 35 unknown address; 36 not locked; 37 no valid plan or state. 22 to 28 need a \
person.";

/// A command: its name, what it does, and its arguments.
#[derive(Clone, Copy)]
struct Form {
    name: &'static str,
    about: &'static str,
    arguments: &'static [Argument],
}

/// The commands that make, serve, check and copy a folder, in the order of the help.
static OF_FOLDERS: [Form; 4] = [
    Form {
        name: "init",
        about: "Creates a folder with its first, empty journal",
        arguments: &[NEW],
    },
    Form {
        name: "serve",
        about: "Serves a folder until it is stopped, in a new journal that continues the newest one",
        arguments: &[
            JOURNALS,
            LISTEN,
            WORKERS,
            METRICS,
            USER_HEADER,
            ADDRESS_HEADER,
            SERVE_READS,
            COMPACT_BYTES,
            COMPACT_ENTRIES,
            KEEP,
            KEEP_DAYS,
            KEEP_BYTES,
            FIRST,
            PAST,
            LEAST,
            LEAST_FILE,
        ],
    },
    Form {
        name: "check",
        about: "Prints what each journal of a folder has, and whether it continues the one before it",
        arguments: &[JOURNALS],
    },
    Form {
        name: "copy",
        about: "Copies the journals of a folder to another one, which can be served instead",
        arguments: &[FROM, TO, KEEP, KEEP_DAYS, KEEP_BYTES, LEAST_OF_COPIES],
    },
];

/// The commands that report on a folder, in the order of the help.
static OF_REPORTS: [Form; 8] = [
    Form {
        name: "list",
        about: "Lists the workspaces by name: the state of each, and who holds its lock and for how long",
        arguments: &[SERVED, HELD, JSON],
    },
    Form {
        name: "holder",
        about: "Prints the lock information of a workspace as JSON",
        arguments: &[SERVED, WORKSPACE],
    },
    Form {
        name: "history",
        about: "Lists the pushes, locks, unlocks and deletes of a workspace or of all, newest first",
        arguments: &[
            SERVED,
            WORKSPACE_OR_ALL,
            ALL,
            SINCE,
            UNTIL,
            LAST,
            ACT,
            WHO,
            LINES,
        ],
    },
    Form {
        name: "show",
        about: "Prints a state of a workspace as it was pushed: the newest one, or the one at a position",
        arguments: &[SERVED, WORKSPACE, POSITION],
    },
    Form {
        name: "diff",
        about: "Lists the instances that changed between two versions, with the names of the changed attributes",
        arguments: &[
            SERVED,
            WORKSPACE,
            FIRST_POSITION,
            SECOND_POSITION,
            VALUES,
            JSON,
        ],
    },
    Form {
        name: "restore",
        about: "Prints the state at a position with the next serial, for `terraform state push`",
        arguments: &[SERVED, WORKSPACE, SOME_POSITION],
    },
    Form {
        name: "impact",
        about: "Lists the instances of a state that depend on given ones, or on the changes of a plan",
        arguments: &[
            SERVED_UNLESS_PLAN,
            WORKSPACE_UNLESS_PLAN,
            QUERY,
            ADDRESSES,
            ACROSS,
            PLAN,
            STATE,
            WORKSPACE_OF_FOLDER,
            URL,
            IGNORE,
            BYTES,
            MARKDOWN,
            MERMAID,
            JSON,
            DOT,
            ANSWER_ONLY,
        ],
    },
    Form {
        name: "stats",
        about: "Prints metrics in the text format of Prometheus",
        arguments: &[SERVED, COPIES],
    },
];

/// The command that shows a folder in a browser.
static OF_PAGES: [Form; 1] = [Form {
    name: "web",
    about: "Serves a page that shows the workspaces of a folder, and changes nothing",
    arguments: &[SERVED, LISTEN_LOCALLY, ACCESS, USER_OF_PAGE, PAGE],
}];

/// Returns the program's command with its subcommands.
pub(crate) fn program<'a>(alloc: Global) -> Result<Command<'a>, AllocError> {
    let program = top(alloc).subcommands(of_folders(alloc)?)?;
    let program = program.subcommands(of_reports(alloc)?)?;
    program.subcommands(of_pages(alloc)?)
}

/// Returns the commands that make, serve, check and copy a folder.
fn of_folders<'a>(alloc: Global) -> Result<Vec<Command<'a>>, AllocError> {
    commands(alloc, &OF_FOLDERS)
}

/// Returns the commands that report on a folder.
fn of_reports<'a>(alloc: Global) -> Result<Vec<Command<'a>>, AllocError> {
    commands(alloc, &OF_REPORTS)
}

/// Returns the command that shows a folder in a browser.
fn of_pages<'a>(alloc: Global) -> Result<Vec<Command<'a>>, AllocError> {
    commands(alloc, &OF_PAGES)
}

/// Returns the program's command without subcommands.
fn top<'a>(alloc: Global) -> Command<'a> {
    Command::new(alloc, "tfstatectl")
        .about("Runs a server for Terraform's state on a folder of journals")
        .version(VERSION)
        .after_help(STATUSES)
        .subcommand_required(true)
}

/// Returns the subcommands.
fn commands<'a>(alloc: Global, forms: &[Form]) -> Result<Vec<Command<'a>>, AllocError> {
    let mut commands = Vec::with_capacity(alloc, forms.len())?;
    for form in forms {
        commands.push(command(alloc, form)?)?;
    }
    Ok(commands)
}

/// Returns a subcommand.
fn command<'a>(alloc: Global, form: &Form) -> Result<Command<'a>, AllocError> {
    let arguments = arguments(alloc, form.arguments)?;
    Command::new(alloc, form.name)
        .about(form.about)
        .args(arguments)
}

/// Returns the arguments of a subcommand.
fn arguments<'a>(alloc: Global, of: &[Argument]) -> Result<Vec<Arg<'a>>, AllocError> {
    let mut arguments = Vec::with_capacity(alloc, of.len())?;
    for argument in of {
        arguments.push(argument.to_arg(alloc)?)?;
    }
    Ok(arguments)
}
