//! The service of the page: each request is answered from the folder as it is then.

ghost use Rattle.std.specs.Prelude.{◌≡◌, false, None, Some, Err, IfOk, IsSome, OnOk, map, option_copied, string_bytes};
ghost use Rattle.std.specs.Char.{to_ascii_lowercase};
ghost use Rattle.http.specs.Request.{head_of};
ghost use Rattle.http_header.specs.HeaderMap.{get};
ghost use Rattle.http_server.specs.Response.{IsBlank};
ghost use Rattle.tfs_site.specs.Answers.{AnswersList, IsFor, IsForField, IsForUser, IsReply, IsSomeList, is_read};
ghost use Rattle.tfs_web.specs.declared.refusal.WebRefusal.TheVariants.{MethodNotAllowed, NoName};
ghost use Rattle.tfs_web_answers.specs.Readers.{Reads, rights_of};

use crate::answers::{changed_row, history_text, workspaces_text};
use crate::changes::changes_text;
use crate::files::{PageFiles, content_of};
use crate::headers::{is_own_host, user_in};
use crate::reading::Kept;
use bytes::Bytes;
use http::{HeaderValue, Request};
use http_server::{Response, Service};
use jiff::Timestamp;
use serde_json::Value;
use std::alloc::{AllocError, Global};
use std::fs;
use std::sync::{Mutex, MutexGuard, Wait};
use tfs_calls::{Impact, Kind, Query, Refusal, Text, Texts};
use tfs_reports::{At, ReportEnd, ReportFault, ReportPlace, fault_of, history_rows, version_of};
use tfs_rules::Name;
use tfs_versions::diff;
use tfs_web::{Access, Asked, Content, PageFile, Question, WebRefusal, asked_of, refuse, reply};
use tfs_web_answers::{Reader, chosen_text, instances_text};

/// What all workers answer from.
#[derive(Drop)]
pub(crate) struct Source<'s> {
    pub(crate) host: &'s HostRuntime,
    pub(crate) folder: &'s str,
    pub(crate) files: &'s PageFiles,
    /// The access file, if users have different rights.
    pub(crate) access: Option<&'s str>,
    /// The name of the header field with the user's name.
    pub(crate) user_header: &'s str,
    /// Whether requests must be for a name of this machine, so that no page of another site can
    /// send them.
    pub(crate) is_local: bool,
    pub(crate) kept: Mutex<Kept>,
}

/// The service of one worker.
#[derive(Drop)]
pub(crate) struct Site<'w, 's, R> {
    pub(crate) rt: &'w R,
    pub(crate) source: &'w Source<'s>,
}

impl<'w, 's, R: Wait> Service for Site<'w, 's, R> {
    ghost use Rattle.tfs_site.specs.Answers.{Answers};

    ghost answers = { λ old request response new. Answers request response };

    fn call(
        &mut self,
        request: &Request<Bytes>,
        response: &mut Response,
    ) -> Result<(), AllocError> {
        match self.answer(request)? {
            Ok(answer) => self.fill(response, answer),
            Err(refusal) => refuse(response, refusal),
        }
    }
}

/// An answer.
#[derive(Drop)]
enum Answer {
    File(PageFile),
    Json(String),
}

impl<'w, 's, R: Wait> Site<'w, 's, R> {
    /// Returns the allocator.
    fn alloc(&self) -> Global {
        self.source.host.alloc()
    }

    /// Fills a response with an answer.
    fn fill(&self, response: &mut Response, answer: Answer) -> Result<(), AllocError>
        requires blank { IsBlank response.old }
        ensures ok { OnOk result (IsReply response.new) }
    {
        match answer {
            Answer::File(file) => {
                let text = Bytes::copy_from_slice(self.alloc(), self.source.files.text(file))?;
                reply(response, content_of(file), text)
            }
            Answer::Json(text) => reply(response, Content::Json, Bytes::from_string(text)?),
        }
    }

    /// Answers a request, or refuses it. Refuses another method, then another host, then a path or
    /// a query, then a request without a user.
    fn answer(&self, request: &Request<Bytes>) -> Result<Result<Answer, WebRefusal>, AllocError>
        ensures method { IfOk result (λ found. is_read (head_of request.now).method ≡ false → found ≡ Err MethodNotAllowed) }
    {
        if !is_read(request.method().as_str()) {
            return Ok(Err(WebRefusal::MethodNotAllowed));
        }
        if self.source.is_local && !is_own_host(request.headers().get("host")) {
            return Ok(Err(WebRefusal::OtherHost));
        }
        let uri = request.uri();
        match asked_of(self.alloc(), uri.path(), uri.query().unwrap_or(""))? {
            Ok(Asked::File(file)) => Ok(Ok(Answer::File(file))),
            Ok(asked) => self.answer_as(request, asked),
            Err(refusal) => Ok(Err(refusal)),
        }
    }

    /// Answers a request as the user that it names, if users have different rights.
    fn answer_as(
        &self,
        request: &Request<Bytes>,
        asked: Asked,
    ) -> Result<Result<Answer, WebRefusal>, AllocError>
        ensures everyone { self.now.source.now.access ≡ None → IfOk result (IsFor None asked) }
        ensures user { IsSome self.now.source.now.access → IfOk result (IsForField
            (get (head_of request.now).headers (map to_ascii_lowercase self.now.source.now.user_header.now)) asked) }
    {
        match self.source.access {
            Some(path) => {
                let field = request.headers().get(self.source.user_header);
                self.answer_by(path, field, asked)
            }
            None => self.answer_for(&mut Reader::Everyone, asked),
        }
    }

    /// Answers the user that a header field names, by an access file.
    fn answer_by(
        &self,
        path: &str,
        field: Option<&HeaderValue>,
        asked: Asked,
    ) -> Result<Result<Answer, WebRefusal>, AllocError>
        ensures { IfOk result (IsForField (option_copied field.entry) asked) }
    {
        match user_in(field) {
            Some(user) => self.answer_to(path, user, asked),
            None => Ok(Err(WebRefusal::NoUser)),
        }
    }

    /// Answers a user by an access file.
    fn answer_to(
        &self,
        path: &str,
        user: &str,
        asked: Asked,
    ) -> Result<Result<Answer, WebRefusal>, AllocError>
        ensures { IfOk result (IsForUser (Some user.now) asked) }
    {
        let Ok(text) = fs::read_to_string(self.source.host, path) else {
            return Ok(Err(WebRefusal::NoAccessFile));
        };
        match Access::read(self.alloc(), text.as_str()) {
            Ok(access) => {
                let reader = access.reader(self.alloc(), user)?;
                self.answer_for(&mut Reader::User(reader), asked)
            }
            Err(_) => Ok(Err(WebRefusal::NoAccessFile)),
        }
    }

    /// Answers what a reader asks for.
    fn answer_for(
        &self,
        reader: &mut Reader<'_>,
        asked: Asked,
    ) -> Result<Result<Answer, WebRefusal>, AllocError>
        ensures for_reader { IfOk result (λ found. IsFor (rights_of reader.old) asked found) }
    {
        match asked {
            Asked::File(file) => Ok(Ok(Answer::File(file))),
            Asked::Workspaces => Ok(self.list(reader)),
            Asked::Workspace(name, question) => self.answer_about(reader, &name, question),
        }
    }

    /// Answers a question about a workspace. Refuses one that the reader may not read as one that
    /// doesn't exist.
    fn answer_about(
        &self,
        reader: &mut Reader<'_>,
        name: &Name,
        question: Question,
    ) -> Result<Result<Answer, WebRefusal>, AllocError>
        ensures hidden { IfOk result (λ found. ¬ (Reads (rights_of reader.old) name.now) → found ≡ Err NoName) }
    {
        if reader.may_read(self.alloc(), name)? {
            Ok(json_of(self.about(name, question)))
        } else {
            Ok(Err(WebRefusal::NoName))
        }
    }

    /// Returns the list of the workspaces that a reader may read.
    fn list(&self, reader: &mut Reader<'_>) -> Result<Answer, WebRefusal>
        ensures list { IfOk result (AnswersList (rights_of reader.old)) }
    {
        match self.workspaces(reader) {
            Ok(text) => Ok(Answer::Json(text)),
            Err(end) => Err(refusal_of(end.fault())),
        }
    }

    /// Returns the workspaces that a reader may read.
    fn workspaces(&self, reader: &mut Reader<'_>) -> Result<String, ReportEnd>
        ensures list { IfOk result (λ text. IsSomeList (rights_of reader.old) (string_bytes text)) }
    {
        let mut kept = self.source.kept.lock(self.rt);
        let text = self.workspaces_in(&mut kept, reader);
        MutexGuard::unlock(kept);
        text
    }

    /// Returns the workspaces of the newest journal that a reader may read.
    fn workspaces_in(&self, kept: &mut Kept, reader: &mut Reader<'_>) -> Result<String, ReportEnd>
        ensures list { IfOk result (λ text. IsSomeList (rights_of reader.old) (string_bytes text)) }
    {
        let present = kept.present(self.source.host, self.source.folder)?;
        let now = seconds_now(self.source.host);
        Ok(workspaces_text(self.alloc(), present, reader, now)?)
    }

    /// Answers a question about a workspace.
    fn about(&self, name: &Name, question: Question) -> Result<String, ReportEnd> {
        match question {
            Question::History => self.history(name),
            Question::Changes(from, to) => self.changes(name, from, to),
            Question::Instances | Question::Impact(_, _) => self.impact_or_all(name, question),
        }
    }

    /// Returns a workspace with its history.
    fn history(&self, name: &Name) -> Result<String, ReportEnd> {
        let acts = history_rows(self.source.host, self.source.folder, name)?;
        let mut kept = self.source.kept.lock(self.rt);
        let row = self.row_in(&mut kept, name);
        MutexGuard::unlock(kept);
        Ok(history_text(self.alloc(), row?.as_ref(), acts.as_slice())?)
    }

    /// Returns the row of a workspace of the newest journal; none if it doesn't have it.
    fn row_in(&self, kept: &mut Kept, name: &Name) -> Result<Option<Value>, ReportEnd> {
        let present = kept.present(self.source.host, self.source.folder)?;
        if present.newest.table.number(name).is_none() {
            return Ok(None);
        }
        let now = seconds_now(self.source.host);
        Ok(Some(changed_row(self.alloc(), present, name, now)?))
    }

    /// Returns the changes of a workspace between two positions.
    fn changes(&self, name: &Name, from: u64, to: u64) -> Result<String, ReportEnd> {
        let (host, folder) = (self.source.host, self.source.folder);
        let old = version_of(host, folder, name, At::Position(from))?;
        let new = version_of(host, folder, name, At::Position(to))?;
        let changes = diff(self.alloc(), &old, &new)?;
        Ok(changes_text(self.alloc(), changes.as_slice())?)
    }

    /// Returns all instances of a workspace's newest state, or what a query chooses.
    fn impact_or_all(&self, name: &Name, question: Question) -> Result<String, ReportEnd> {
        let mut kept = self.source.kept.lock(self.rt);
        let text = self.instances_in(&mut kept, name, question);
        MutexGuard::unlock(kept);
        text
    }

    /// Returns all instances of a workspace in the newest journal, or what a query chooses.
    fn instances_in(
        &self,
        kept: &mut Kept,
        name: &Name,
        question: Question,
    ) -> Result<String, ReportEnd> {
        let present = kept.present(self.source.host, self.source.folder)?;
        let table = &present.newest.table;
        if let Question::Impact(is_all, addresses) = question {
            let query = query_for(self.alloc(), is_all, addresses)?;
            return match table.impact(name, &query) {
                Ok(impact) => Ok(impact_text(self.alloc(), &impact)?),
                Err(refusal) => Err(end_of(&refusal)),
            };
        }
        match table.version(name) {
            Some(version) => { Ok(instances_text(self.alloc(), version.doc(), table.position())?) }
            None => Err(end_of(&Refusal::NoState)),
        }
    }
}

/// Returns true for the methods that the page answers.
fn is_read(method: &str) -> bool
    ensures { result ≡ is_read method.now }
{
    method == "GET" || method == "HEAD"
}

/// Returns the query for `any` or `all` of the addresses.
fn query_for(alloc: Global, is_all: bool, addresses: Vec<String>) -> Result<Query, AllocError> {
    let mut texts = Vec::with_capacity(alloc, addresses.len())?;
    for address in addresses {
        texts.push(Text::new(address))?;
    }
    Ok(Query {
        kind: if is_all { Kind::All } else { Kind::Any },
        texts: Texts::new(texts),
    })
}

/// Returns the instances that a query chooses, with the position of the journal that was asked.
fn impact_text(alloc: Global, impact: &Impact) -> Result<String, AllocError> {
    chosen_text(
        alloc,
        impact.version.doc(),
        impact.chosen.as_slice(),
        impact.position,
    )
}

/// Returns the end by a refused query.
fn end_of(refusal: &Refusal) -> ReportEnd {
    ReportEnd::at(ReportPlace::Name, fault_of(refusal))
}

/// Returns an answer as JSON, or the refusal by a fault.
fn json_of(text: Result<String, ReportEnd>) -> Result<Answer, WebRefusal> {
    match text {
        Ok(text) => Ok(Answer::Json(text)),
        Err(end) => Err(refusal_of(end.fault())),
    }
}

/// Returns the refusal by a fault.
fn refusal_of(fault: ReportFault) -> WebRefusal {
    match fault {
        ReportFault::NoName => WebRefusal::NoName,
        ReportFault::NoState => WebRefusal::NoState,
        ReportFault::BeforeOldest(_) | ReportFault::BehindNewest(_) | ReportFault::NotKept => {
            WebRefusal::NoPosition
        }
        ReportFault::NoAddress | ReportFault::TooManyAddresses => WebRefusal::BadQuery,
        ReportFault::UnknownAddress(_) => WebRefusal::UnknownAddress,
        _ => WebRefusal::Unreadable,
    }
}

/// Returns the current time in seconds since 1970, if there is a clock.
fn seconds_now(rt: &HostRuntime) -> Option<i64> {
    match Timestamp::now(rt) {
        Ok(now) => Some(now.as_second()),
        Err(_) => None,
    }
}
