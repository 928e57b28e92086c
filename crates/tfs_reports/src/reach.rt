//! What a change reaches in the newest state of a workspace, by the index and the rules that the
//! server answers with.

ghost use Rattle.std.specs.Prelude.{◌<◌, length};

use crate::acts::name_of;
use crate::fault::{ReportEnd, ReportFault, ReportPlace};
use crate::files::newest_table;
use crate::output::write;
use crate::report::{Layout, Report};
use serde_json::{Value, json};
use std::alloc::{AllocError, Global};
use tfs_calls::{Impact, Kind, Query, Refusal, Text, Texts};
use tfs_printed::push_drawn;
use tfs_rules::Name;
use tfs_state::Doc;
use tfs_versions::picture;

const COLUMNS: &[&str] = &["instance"];

/// How an answer is printed.
#[derive(Clone, Copy)]
pub enum Form {
    /// A table.
    Table,
    /// JSON.
    Json,
    /// A picture of all instances, with those of the answer filled.
    Picture,
    /// A picture of the answer's instances.
    AnswerPicture,
}

/// Prints what a change of the named instances reaches in the newest state of a workspace: `any` or
/// `all` of them.
pub fn print_impact(
    rt: &HostRuntime,
    folder: &str,
    name: &str,
    query: Query,
    form: Form,
) -> Result<(), ReportEnd> {
    let name = name_of(rt.alloc(), name)?;
    let answer = answer_of(rt, folder, &name, &query)?;
    tell(rt, &answer, form)
}

/// Answers a query over the newest journal of a folder.
fn answer_of(
    rt: &HostRuntime,
    folder: &str,
    name: &Name,
    query: &Query,
) -> Result<Impact, ReportEnd> {
    let table = newest_table(rt, folder)?;
    if table.number(name).is_none() {
        return Err(ReportEnd::at(ReportPlace::Name, ReportFault::NoName));
    }
    match table.impact(name, query) {
        Ok(answer) => Ok(answer),
        Err(refusal) => Err(ReportEnd::at(ReportPlace::Name, fault_of(&refusal))),
    }
}

/// Returns the query for `any` or `all` of the addresses.
pub fn query_of(alloc: Global, is_all: bool, addresses: &[&str]) -> Result<Query, ReportEnd> {
    let kind = if is_all { Kind::All } else { Kind::Any };
    let texts = Texts::new(texts_of(alloc, addresses)?);
    Ok(Query { kind, texts })
}

/// Returns the addresses as texts of a query.
fn texts_of(alloc: Global, addresses: &[&str]) -> Result<Vec<Text>, AllocError> {
    let mut texts = Vec::with_capacity(alloc, addresses.len())?;
    for address in addresses {
        texts.push(Text::new(String::from_str(alloc, address)?))?;
    }
    Ok(texts)
}

/// Returns the fault for a refused query.
pub fn fault_of(refusal: &Refusal) -> ReportFault {
    match refusal {
        Refusal::NoState => ReportFault::NoState,
        Refusal::NoAddress => ReportFault::NoAddress,
        Refusal::TooManyAddresses => ReportFault::TooManyAddresses,
        Refusal::UnknownAddress(number) => ReportFault::UnknownAddress(*number),
        Refusal::OutOfMemory => ReportFault::Files(tfs_files::CommandFault::OutOfMemory),
        // A query is refused for none of these.
        Refusal::HeadTooLarge
        | Refusal::BadHead
        | Refusal::NoHost
        | Refusal::BadLength
        | Refusal::TransferCoding
        | Refusal::BodyTooLarge
        | Refusal::BadChunk
        | Refusal::NoRoute
        | Refusal::MethodNotAllowed(_)
        | Refusal::BadName
        | Refusal::BadDigest
        | Refusal::BadLockInfo
        | Refusal::BadState
        | Refusal::TooManyInstances
        | Refusal::JournalStopped
        | Refusal::Locked(_)
        | Refusal::LockLost
        | Refusal::LineageDiffers
        | Refusal::SerialTooLow
        | Refusal::SerialReused
        | Refusal::TableFull
        | Refusal::JournalFull
        | Refusal::JournalFault
        | Refusal::NoCopy => ReportFault::Files(tfs_files::CommandFault::OutOfMemory),
    }
}

/// Prints an answer.
fn tell(rt: &HostRuntime, answer: &Impact, form: Form) -> Result<(), ReportEnd> {
    let doc = answer.version.doc();
    let chosen = answer.chosen.as_slice();
    match form {
        Form::Table => report_of(rt.alloc(), doc, chosen, false)?.print(rt),
        Form::Json => report_of(rt.alloc(), doc, chosen, true)?.print(rt),
        Form::Picture => {
            let all = all_numbers_of(rt.alloc(), doc)?;
            draw(rt, doc, all.as_slice(), chosen)
        }
        Form::AnswerPicture => draw(rt, doc, chosen, chosen),
    }
}

/// Prints a picture of some instances, with the chosen ones filled.
fn draw(rt: &HostRuntime, doc: &Doc, among: &[usize], chosen: &[usize]) -> Result<(), ReportEnd> {
    let bytes = picture(rt.alloc(), doc, among, chosen)?;
    let text = String::from_utf8_lossy(rt.alloc(), bytes.as_slice())?;
    let mut drawn = String::with_capacity(rt.alloc(), text.len())?;
    push_drawn(&mut drawn, text.as_str())?;
    write(rt, drawn.as_bytes())
}

/// Returns a report with a row for each chosen instance.
fn report_of(alloc: Global, doc: &Doc, chosen: &[usize], json: bool) -> Result<Report, AllocError> {
    let mut report = Report::new(alloc, COLUMNS, Layout::of(json))?;
    for number in chosen {
        if *number < doc.len() {
            report.add(alloc, &row_of(alloc, doc, *number)?)?;
        }
    }
    Ok(report)
}

/// Returns the row of an instance.
fn row_of(alloc: Global, doc: &Doc, number: usize) -> Result<Value, AllocError>
    requires { number < length doc.now.instances }
{
    let address = doc.address(number);
    json!(in alloc; {"instance": format!(in alloc; "{address}")?})
}

/// Returns the numbers of all instances.
fn all_numbers_of(alloc: Global, doc: &Doc) -> Result<Vec<usize>, AllocError> {
    let mut numbers = Vec::with_capacity(alloc, doc.len())?;
    for number in 0..doc.len() {
        numbers.push(number)?;
    }
    Ok(numbers)
}
