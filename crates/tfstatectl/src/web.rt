//! The command `web`: serves a page that shows a folder.

use crate::command::folder_of;
use crate::listening::listen;
use clap::ArgMatches;
use std::net::OpenListener;
use std::process::ExitCode;
use std::sync::Wait;
use std::thread::Threads;
use std::time::Clock;
use tfs_files::{CommandFault, end_by, status_of};
use tfs_serve::AnyListener;
use tfs_site::{PageFiles, WebPlan, serve_web};

/// Serves the page of a folder until its listener fails. Returns the program's exit status.
pub(crate) fn run<R: Threads + Wait + Clock + Sync>(
    rt: &R,
    host: &HostRuntime,
    given: &ArgMatches<'_>,
) -> ExitCode {
    let page = given.get_str("page").unwrap_or(".");
    let files = match PageFiles::read(host, page) {
        Ok(files) => files,
        Err(error) => {
            let _ = eprintln!(host;
                "tfstatectl: {page}: the page can't be read: {error}. Name its folder with --page"
            );
            return ExitCode::from(status_of(CommandFault::CannotRead));
        }
    };
    let address = given.get_str("listen").unwrap_or("127.0.0.1:8081");
    match listen(host, address) {
        Ok(listener) => serve_at(rt, host, given, &files, (address, &listener)),
        Err(end) => end_by(host, address, end),
    }
}

/// Serves the page on a listener. Refuses an address that other machines reach, because the page
/// asks for no password.
fn serve_at<R: Threads + Wait + Clock + Sync>(
    rt: &R,
    host: &HostRuntime,
    given: &ArgMatches<'_>,
    files: &PageFiles,
    listening: (&str, &AnyListener),
) -> ExitCode {
    let (address, listener) = listening;
    if !is_local(listener) {
        let _ = eprintln!(host;
            "tfstatectl: {address}: the page asks for no password. Listen at a loopback address or a socket"
        );
        return ExitCode::from(status_of(CommandFault::Arguments));
    }
    let plan = WebPlan {
        folder: folder_of(given),
        access: given.get_str("access"),
        user_header: given.get_str("user-header").unwrap_or("x-remote-user"),
        is_local: matches!(listener, AnyListener::Tcp(_)),
    };
    let _ = eprintln!(host; "tfstatectl: the page is at {address}");
    match serve_web(rt, host, listener, files, &plan) {
        Some(fault) => {
            let _ = eprintln!(host; "tfstatectl: {address}: {fault}. Start again");
            ExitCode::from(status_of(CommandFault::AcceptFault))
        }
        None => ExitCode::SUCCESS,
    }
}

/// Returns true if only this machine reaches a listener.
fn is_local(listener: &AnyListener) -> bool {
    match listener {
        AnyListener::Tcp(listener) => match listener.local_addr() {
            Ok(address) => address.ip().is_loopback(),
            Err(_) => false,
        },
        AnyListener::Local(_) => true,
    }
}
