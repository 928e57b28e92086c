//! The table of refusals in docs/PROTOCOL.md (Refusals).

use crate::helpers::{A, info_of};
use crate::lines::expect_that;
use std::alloc::Global;
use std::process::Abort;
use tfs_calls::{Methods, Refusal};

/// Checks a refusal's number, name and status.
fn is_row(rt: &impl Abort, refusal: Refusal, number: u8, name: &str, status: u16) {
    expect_that(rt, refusal.number() == number, name);
    expect_that(rt, refusal.name() == name, name);
    expect_that(rt, refusal.status() == status, name);
}

#[test]
fn refusals_of_messages_have_their_rows(rt: HostRuntime) {
    is_row(&rt, Refusal::HeadTooLarge, 1, "HeadTooLarge", 431);
    is_row(&rt, Refusal::BadHead, 2, "BadHead", 400);
    is_row(&rt, Refusal::NoHost, 3, "NoHost", 400);
    is_row(&rt, Refusal::BadLength, 4, "BadLength", 400);
    is_row(&rt, Refusal::TransferCoding, 5, "TransferCoding", 501);
    is_row(&rt, Refusal::BodyTooLarge, 6, "BodyTooLarge", 413);
    is_row(&rt, Refusal::BadChunk, 28, "BadChunk", 400);
}

#[test]
fn refusals_of_calls_have_their_rows(rt: HostRuntime) {
    let state = Refusal::MethodNotAllowed(Methods::State);
    is_row(&rt, Refusal::NoRoute, 7, "NoRoute", 404);
    is_row(&rt, state, 8, "MethodNotAllowed", 405);
    is_row(&rt, Refusal::BadName, 9, "BadName", 400);
    is_row(&rt, Refusal::BadDigest, 10, "BadDigest", 400);
    is_row(&rt, Refusal::BadLockInfo, 11, "BadLockInfo", 400);
    is_row(&rt, Refusal::BadState, 12, "BadState", 400);
    is_row(&rt, Refusal::TooManyInstances, 13, "TooManyInstances", 413);
}

#[test]
fn refusals_of_changes_have_their_rows(rt: HostRuntime) {
    is_row(&rt, Refusal::Locked(info_of(&rt, A)), 15, "Locked", 423);
    is_row(&rt, Refusal::JournalStopped, 14, "JournalStopped", 503);
    is_row(&rt, Refusal::LockLost, 16, "LockLost", 409);
    is_row(&rt, Refusal::LineageDiffers, 17, "LineageDiffers", 409);
    is_row(&rt, Refusal::SerialTooLow, 18, "SerialTooLow", 409);
    is_row(&rt, Refusal::SerialReused, 19, "SerialReused", 409);
    is_row(&rt, Refusal::TableFull, 24, "TableFull", 507);
    is_row(&rt, Refusal::JournalFull, 25, "JournalFull", 507);
    is_row(&rt, Refusal::JournalFault, 27, "JournalFault", 500);
}

#[test]
fn refusals_of_reads_have_their_rows(rt: HostRuntime) {
    is_row(&rt, Refusal::NoState, 20, "NoState", 404);
    is_row(&rt, Refusal::NoAddress, 21, "NoAddress", 400);
    is_row(&rt, Refusal::TooManyAddresses, 22, "TooManyAddresses", 400);
    is_row(&rt, Refusal::UnknownAddress(1), 23, "UnknownAddress", 404);
    is_row(&rt, Refusal::OutOfMemory, 26, "OutOfMemory", 503);
    is_row(&rt, Refusal::NoCopy, 29, "NoCopy", 503);
}
