//! The commands that read a folder, which may be served meanwhile, and the function that each of
//! them calls.

use crate::command::folder_of;
use clap::ArgMatches;
use std::process::ExitCode;
use tfs_plan_reports::PlanForm;
use tfs_reports::{
    Asked, At, Comparison, Form, Listing, PlanAsked, Printing, ReportEnd, ReportFault, ReportPlace,
    StateSource, end_by, history, list, print_across, print_diff, print_holder, print_impact,
    print_plan_impact, query_of, restore, show, stats,
};

/// Runs a command that reads a folder. Returns the program's exit status.
pub(crate) fn run(rt: &HostRuntime, command: &str, given: &ArgMatches<'_>) -> ExitCode {
    let (folder, name) = match given.get_strs("folder").or(given.get_strs("url")) {
        Some([folder, name]) => (*folder, *name),
        _ => (folder_of(given), name_of(given)),
    };
    match report(rt, command, folder, name, given) {
        Ok(()) => ExitCode::SUCCESS,
        Err(end) => end_by(rt, folder, name, end),
    }
}

/// Returns what a command is about in addition to a folder: a workspace, or a folder of copies.
fn name_of<'a>(given: &ArgMatches<'a>) -> &'a str {
    given
        .get_str("NAME")
        .or(given.get_str("copies"))
        .unwrap_or("")
}

/// Prints what a command requests.
fn report(
    rt: &HostRuntime,
    command: &str,
    folder: &str,
    name: &str,
    given: &ArgMatches<'_>,
) -> Result<(), ReportEnd> {
    let at = match given.get_str("position") {
        Some(text) => Some(At::read(text)?),
        None => None,
    };
    match command {
        "holder" => print_holder(rt, folder, name),
        "history" => history(
            rt,
            folder,
            workspace_of(given),
            &asked_of(given),
            printing_of(given),
        ),
        "show" => show(rt, folder, name, at),
        "diff" => print_diff(rt, folder, name, comparison_of(given)?),
        "restore" => restore(rt, folder, name, at.unwrap_or(At::Position(0))),
        "impact" => report_impact(rt, folder, name, given),
        "stats" => stats(rt, folder, given.get_str("copies")),
        _ => list(rt, folder, listing_of(given)),
    }
}

/// Returns the options of `list`.
fn listing_of(given: &ArgMatches<'_>) -> Listing {
    Listing {
        is_json: given.get_flag("json"),
        is_held_only: given.get_flag("held"),
    }
}

/// Returns the options of `diff`.
fn comparison_of(given: &ArgMatches<'_>) -> Result<Comparison, ReportEnd> {
    Ok(Comparison {
        from: At::read(given.get_str("first-position").unwrap_or("0"))?,
        to: At::read(given.get_str("second-position").unwrap_or("0"))?,
        has_values: given.get_flag("values"),
        is_json: given.get_flag("json"),
    })
}

/// Returns the filter options of `history`.
fn asked_of<'a>(given: &ArgMatches<'a>) -> Asked<'a> {
    Asked {
        act: given.get_str("act"),
        who: given.get_str("who"),
        since: given.get_str("since"),
        until: given.get_str("until"),
    }
}

/// Returns the workspace whose acts to list; none for all workspaces.
fn workspace_of<'a>(given: &ArgMatches<'a>) -> Option<&'a str> {
    if given.get_flag("all") {
        None
    } else {
        given.get_str("NAME")
    }
}

/// Returns the output options of `history`.
fn printing_of(given: &ArgMatches<'_>) -> Printing {
    Printing {
        is_json: given.get_flag("json"),
        most: given.get_one::<usize>("last").unwrap_or(usize::MAX),
    }
}

/// Prints what the changes of a plan reach.
fn report_plan(rt: &HostRuntime, plan: &str, given: &ArgMatches<'_>) -> Result<(), ReportEnd> {
    let asked = PlanAsked {
        plan,
        state: state_source_of(given)?,
        form: plan_form_of(given),
        bytes: given.get_one::<usize>("bytes").unwrap_or(60_000),
    };
    print_plan_impact(rt, asked, given.get_strs("ignore").unwrap_or(&[]))
}

/// Returns where to read the state of `impact --plan`.
fn state_source_of<'a>(given: &ArgMatches<'a>) -> Result<StateSource<'a>, ReportEnd> {
    if let Some([folder, name]) = given.get_strs("folder") {
        return Ok(StateSource::Workspace(folder, name));
    }
    if let Some([url, name]) = given.get_strs("url") {
        return Ok(StateSource::Server(url, name));
    }
    match given.get_str("state") {
        Some(path) => Ok(StateSource::File(path)),
        None => Err(ReportEnd::at(ReportPlace::State, ReportFault::NoSource)),
    }
}

/// Returns the form of `impact --plan`.
fn plan_form_of(given: &ArgMatches<'_>) -> PlanForm {
    if given.get_flag("markdown") {
        PlanForm::Markdown
    } else if given.get_flag("mermaid") {
        PlanForm::Mermaid
    } else if given.get_flag("dot") {
        PlanForm::Dot
    } else if given.get_flag("json") {
        PlanForm::Json
    } else {
        PlanForm::Lines
    }
}

/// Prints what a change reaches, or which workspaces read the workspace.
fn report_impact(
    rt: &HostRuntime,
    folder: &str,
    name: &str,
    given: &ArgMatches<'_>,
) -> Result<(), ReportEnd> {
    if given.get_flag("across") {
        return print_across(rt, folder, name, given.get_flag("json"));
    }
    if let Some(plan) = given.get_str("plan") {
        return report_plan(rt, plan, given);
    }
    let is_all = given.get_str("QUERY") == Some("all");
    let addresses = given.get_strs("ADDRESS").unwrap_or(&[]);
    let form = if given.get_flag("answer-only") {
        Form::AnswerPicture
    } else if given.get_flag("dot") {
        Form::Picture
    } else if given.get_flag("json") {
        Form::Json
    } else {
        Form::Table
    };
    let query = query_of(rt.alloc(), is_all, addresses)?;
    print_impact(rt, folder, name, query, form)
}
