//! The arguments of the program's commands.

use crate::argument::{Argument, Takes, Value};
use clap::builder::ValueParser;

/// Any number of 64 bits.
const NUMBER: ValueParser<'static> = ValueParser::Unsigned(0, u64::MAX);

/// The folder of the journals.
pub(crate) const JOURNALS: Argument = Argument {
    name: "FOLDER",
    takes: Takes::Word,
    help: "The folder of the journals",
};

/// The new folder of `init`.
pub(crate) const NEW: Argument = Argument {
    name: "FOLDER",
    takes: Takes::Word,
    help: "The new folder, which never had a journal",
};

/// A folder of journals that is only read.
pub(crate) const SERVED: Argument = Argument {
    name: "FOLDER",
    takes: Takes::Word,
    help: "The folder of the journals; a server may use it meanwhile",
};

/// The folder to copy.
pub(crate) const FROM: Argument = Argument {
    name: "FROM",
    takes: Takes::Word,
    help: "The folder of the journals; a server may use it meanwhile",
};

/// The folder of the copies.
pub(crate) const TO: Argument = Argument {
    name: "TO",
    takes: Takes::Word,
    help: "The folder of the copies: empty, or with earlier copies of the same journals",
};

/// The name of a workspace.
pub(crate) const WORKSPACE: Argument = Argument {
    name: "NAME",
    takes: Takes::Word,
    help: "The name of the workspace. After -- it may begin with a hyphen",
};

/// The name of a workspace, unless all workspaces are requested.
pub(crate) const WORKSPACE_OR_ALL: Argument = Argument {
    name: "NAME",
    takes: Takes::WordUnless("all"),
    help: "The name of the workspace. After -- it may begin with a hyphen",
};

/// Whether to list the acts of all workspaces.
pub(crate) const ALL: Argument = Argument {
    name: "all",
    takes: Takes::Nothing,
    help: "Lists the acts of all workspaces, with their names",
};

/// Whether to print JSON.
pub(crate) const JSON: Argument = Argument {
    name: "json",
    takes: Takes::Nothing,
    help: "Prints JSON instead of a table",
};

/// Whether to list only locked workspaces.
pub(crate) const HELD: Argument = Argument {
    name: "held",
    takes: Takes::Nothing,
    help: "Lists only locked workspaces",
};

/// The kind of acts to list.
pub(crate) const ACT: Argument = Argument {
    name: "act",
    takes: Takes::Value(
        "ACT",
        Value::Among(&["push", "lock", "unlock", "force-unlock", "delete"]),
    ),
    help: "Lists only acts of this kind",
};

/// The user, or the `Who` of the locks, whose acts to list.
pub(crate) const WHO: Argument = Argument {
    name: "who",
    takes: Takes::Value("WHO", Value::Optional(ValueParser::String)),
    help: "Lists only acts by the user WHO, or under a lock whose `who` is WHO",
};

/// The earliest time of the acts to list.
pub(crate) const SINCE: Argument = Argument {
    name: "since",
    takes: Takes::Value("TIME", Value::Optional(ValueParser::String)),
    help: "Lists only acts made at this time or later (2026-02-03T04:05:06Z)",
};

/// The latest time of the acts to list.
pub(crate) const UNTIL: Argument = Argument {
    name: "until",
    takes: Takes::Value("TIME", Value::Optional(ValueParser::String)),
    help: "Lists only acts made at this time or earlier",
};

/// The number of newest acts to list.
pub(crate) const LAST: Argument = Argument {
    name: "last",
    takes: Takes::Value("NUMBER", Value::Optional(NUMBER)),
    help: "Lists only this number of the newest acts",
};

/// Whether to print a line of JSON for each act.
pub(crate) const LINES: Argument = Argument {
    name: "json",
    takes: Takes::Nothing,
    help: "Prints a line of JSON for each act instead of a table",
};

/// Whether to print a picture.
pub(crate) const DOT: Argument = Argument {
    name: "dot",
    takes: Takes::NothingUnless(&["across", "json"]),
    help: "Prints a graph for Graphviz, with the answer filled",
};

/// Whether to print a picture of the answer alone.
pub(crate) const ANSWER_ONLY: Argument = Argument {
    name: "answer-only",
    takes: Takes::NothingUnless(&["across", "plan", "json"]),
    help: "Prints a graph of the answer alone",
};

/// Whether to list the readers of the workspace.
pub(crate) const ACROSS: Argument = Argument {
    name: "across",
    takes: Takes::NothingUnless(&["plan"]),
    help: "Lists the workspaces that read outputs of this one, directly or through others, instead",
};

/// The address or socket of the server's numbers.
pub(crate) const METRICS: Argument = Argument {
    name: "metrics",
    takes: Takes::Value("ADDRESS", Value::Optional(ValueParser::String)),
    help: "Answers GET /metrics at HOST:PORT or unix:PATH with the server's numbers for Prometheus",
};

/// Whether to answer reads after the journal can't be written any more.
pub(crate) const SERVE_READS: Argument = Argument {
    name: "serve-reads",
    takes: Takes::Nothing,
    help: "Continues to answer reads if the journal can't be written, instead of ending",
};

/// An optional position or time.
pub(crate) const POSITION: Argument = Argument {
    name: "position",
    takes: Takes::Value("POSITION", Value::Optional(ValueParser::String)),
    help: "A position from `history`, or a time such as 2026-02-03T04:05:06Z",
};

/// A required position or time.
pub(crate) const SOME_POSITION: Argument = Argument {
    name: "position",
    takes: Takes::Value("POSITION", Value::Required(ValueParser::String)),
    help: "A position from `history`, or a time such as 2026-02-03T04:05:06Z",
};

/// The position or time of the first version.
pub(crate) const FIRST_POSITION: Argument = Argument {
    name: "first-position",
    takes: Takes::Called("FROM"),
    help: "The position of the first version, or a time such as 2026-02-03T04:05:06Z",
};

/// The position or time of the second version.
pub(crate) const SECOND_POSITION: Argument = Argument {
    name: "second-position",
    takes: Takes::Called("TO"),
    help: "The position of the second version, or a time such as 2026-02-03T04:05:06Z",
};

/// Whether to print values.
pub(crate) const VALUES: Argument = Argument {
    name: "values",
    takes: Takes::Nothing,
    help: "Prints a row for each changed attribute with both values, secrets included",
};

/// The folder of copies.
pub(crate) const COPIES: Argument = Argument {
    name: "copies",
    takes: Takes::Value("FOLDER", Value::Optional(ValueParser::String)),
    help: "A folder of copies: adds the age of its newest journal, if it has one",
};

/// How many files of `old/` to keep, instead of the two limits.
pub(crate) const KEEP: Argument = Argument {
    name: "keep",
    takes: Takes::Value(
        "NUMBER",
        Value::UnlessAny(NUMBER, &["keep-days", "keep-bytes"]),
    ),
    help: "Keeps this number of the newest files in old/, instead of --keep-days and --keep-bytes",
};

/// How old the files of `old/` may be.
pub(crate) const KEEP_DAYS: Argument = Argument {
    name: "keep-days",
    takes: Takes::Value("DAYS", Value::Default(NUMBER, "90")),
    help: "Removes files of old/ that are older; the newest 10 always stay",
};

/// How many bytes the files of `old/` may have together.
pub(crate) const KEEP_BYTES: Argument = Argument {
    name: "keep-bytes",
    takes: Takes::Value("NUMBER", Value::Default(NUMBER, "10737418240")),
    help: "Removes the oldest files of old/ while their total is larger; the newest 10 always stay (10G; K, M and G are binary)",
};

/// The address or socket to listen on.
pub(crate) const LISTEN: Argument = Argument {
    name: "listen",
    takes: Takes::Value(
        "ADDRESS",
        Value::Default(ValueParser::String, "127.0.0.1:8080"),
    ),
    help: "Listens at HOST:PORT, or unix:PATH for a socket that only its user and group may use",
};

/// The number of workers.
pub(crate) const WORKERS: Argument = Argument {
    name: "workers",
    takes: Takes::Value("NUMBER", Value::Default(ValueParser::Unsigned(1, 16), "16")),
    help: "Answers this number of connections at once, 1 to 16",
};

/// How many bytes a journal may grow by before it is compacted.
pub(crate) const COMPACT_BYTES: Argument = Argument {
    name: "compact-bytes",
    takes: Takes::Value(
        "NUMBER",
        Value::Default(ValueParser::Unsigned(1, u64::MAX), "268435456"),
    ),
    help: "Compacts the journal once it has grown by this many bytes (256M; K, M and G are binary)",
};

/// How many entries a journal may grow by before it is compacted. With the highest value, 536 more
/// entries are left for changes in progress.
pub(crate) const COMPACT_ENTRIES: Argument = Argument {
    name: "compact-entries",
    takes: Takes::Value(
        "NUMBER",
        Value::Default(ValueParser::Unsigned(1, 65_000), "32768"),
    ),
    help: "Compacts the journal after this many changes (32K, at most 65,000)",
};

/// Whether to start a new folder, and the file of its first journal.
pub(crate) const FIRST: Argument = Argument {
    name: "first",
    takes: Takes::Value("FILE", Value::Perhaps),
    help: "Creates the first journal of a folder that never had one: empty, or from a file",
};

/// The earlier journal to discard.
pub(crate) const PAST: Argument = Argument {
    name: "accept-past",
    takes: Takes::Value("FILE", Value::Unless("first")),
    help: "Discards an earlier journal of the folder; changes in it that the newest one lacks are lost",
};

/// The least position.
pub(crate) const LEAST: Argument = Argument {
    name: "at-least",
    takes: Takes::Value("POSITION", Value::Optional(NUMBER)),
    help: "Refuses to start from a journal with a lower position",
};

/// The file of the least position of `serve`.
pub(crate) const LEAST_FILE: Argument = Argument {
    name: "at-least-file",
    takes: Takes::Value("FILE", Value::Optional(ValueParser::String)),
    help: "Does the same with the position in a file, which the server raises with each change",
};

/// The file of the least position of `copy`.
pub(crate) const LEAST_OF_COPIES: Argument = Argument {
    name: "at-least-file",
    takes: Takes::Value("FILE", Value::Optional(ValueParser::String)),
    help: "A file whose position is raised to that of the copy",
};

/// Whether to combine the answers for the addresses by `any` or `all`.
pub(crate) const QUERY: Argument = Argument {
    name: "QUERY",
    takes: Takes::OneOfUnless(&["any", "all"], &["across", "plan"]),
    help: "any: what a change of at least one address reaches; all: what a change of each address reaches",
};

/// The addresses that a change concerns.
pub(crate) const ADDRESSES: Argument = Argument {
    name: "ADDRESS",
    takes: Takes::WordsUnless(&["across", "plan"]),
    help: "Addresses of instances, or of resources for all their instances",
};

/// The folder of a workspace, unless a plan is given.
pub(crate) const SERVED_UNLESS_PLAN: Argument = Argument {
    name: "FOLDER",
    takes: Takes::WordUnless("plan"),
    help: "The folder of the journals; a server may use it meanwhile",
};

/// The name of a workspace, unless a plan is given.
pub(crate) const WORKSPACE_UNLESS_PLAN: Argument = Argument {
    name: "NAME",
    takes: Takes::WordUnless("plan"),
    help: "The name of the workspace. After -- it may begin with a hyphen",
};

/// The file of a plan.
pub(crate) const PLAN: Argument = Argument {
    name: "plan",
    takes: Takes::Value("FILE", Value::Optional(ValueParser::String)),
    help: "Asks about the changes of a plan instead of addresses: what `terraform show -json` prints; - for standard input",
};

/// The file of a state.
pub(crate) const STATE: Argument = Argument {
    name: "state",
    takes: Takes::Value(
        "FILE",
        Value::UnlessAny(ValueParser::String, &["QUERY", "across"]),
    ),
    help: "With --plan: the state, as `terraform state pull` prints it; - for standard input",
};

/// The folder and the name of the workspace whose newest state to use.
pub(crate) const WORKSPACE_OF_FOLDER: Argument = Argument {
    name: "folder",
    takes: Takes::Value(
        "FOLDER",
        Value::PairUnless(&["FOLDER", "NAME"], &["QUERY", "across", "state"]),
    ),
    help: "With --plan: the newest state of a workspace in a folder of journals",
};

/// The address of a server, and the name of the workspace whose newest state to use.
pub(crate) const URL: Argument = Argument {
    name: "url",
    takes: Takes::Value(
        "URL",
        Value::PairUnless(&["URL", "NAME"], &["QUERY", "across", "state", "folder"]),
    ),
    help: "With --plan: the newest state of a workspace, from a server at http://HOST:PORT or unix:PATH",
};

/// The attributes whose updates to leave out.
pub(crate) const IGNORE: Argument = Argument {
    name: "ignore",
    takes: Takes::Value("NAMES", Value::ListUnless(&["QUERY", "across"])),
    help: "With --plan: leaves out updates of only these attributes, as in tags,tags_all",
};

/// The maximum length of the output.
pub(crate) const BYTES: Argument = Argument {
    name: "bytes",
    takes: Takes::Value(
        "NUMBER",
        Value::Default(ValueParser::Unsigned(1_000, u64::MAX), "60000"),
    ),
    help: "With --plan: leaves out the last rows if the output would be longer, and prints how many",
};

/// Whether to print Markdown.
pub(crate) const MARKDOWN: Argument = Argument {
    name: "markdown",
    takes: Takes::NothingUnless(&["QUERY", "across", "mermaid", "json", "dot"]),
    help: "With --plan: prints a comment in Markdown",
};

/// Whether to print a picture for Mermaid.
pub(crate) const MERMAID: Argument = Argument {
    name: "mermaid",
    takes: Takes::NothingUnless(&["QUERY", "across", "json", "dot"]),
    help: "With --plan: prints a picture for Mermaid",
};
