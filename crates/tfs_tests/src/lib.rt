//! Tests of the library crates by their public calls: planes, journals and folders, requests,
//! replies, conversations and shared tables. Large sets of cases are lines of a text. The expected
//! values are written by hand.
#![tactic(auto)]

#[cfg(test)]
mod closed;
#[cfg(test)]
mod compacted;
#[cfg(test)]
mod connections;
#[cfg(test)]
mod conversations;
#[cfg(test)]
mod crowd;
#[cfg(test)]
mod digests;
#[cfg(test)]
mod drafts;
#[cfg(test)]
mod faulty;
#[cfg(test)]
mod files;
#[cfg(test)]
mod folders;
#[cfg(test)]
mod framing;
#[cfg(test)]
mod helpers;
#[cfg(test)]
mod http;
#[cfg(test)]
mod idle;
#[cfg(test)]
mod journals;
#[cfg(test)]
mod lines;
#[cfg(test)]
mod orders;
#[cfg(test)]
mod pieces;
#[cfg(test)]
mod planes;
#[cfg(test)]
mod readers;
#[cfg(test)]
mod refusals;
#[cfg(test)]
mod runs;
#[cfg(test)]
mod sessions;
#[cfg(test)]
mod shared;
#[cfg(test)]
mod sinks;
#[cfg(test)]
mod stopped;
#[cfg(test)]
mod surface;
#[cfg(test)]
mod syncs;
#[cfg(test)]
mod syncs_in_order;
#[cfg(test)]
mod texts;
#[cfg(test)]
mod waiting;
#[cfg(test)]
mod withheld;
#[cfg(test)]
mod within;
#[cfg(test)]
mod workers;
#[cfg(test)]
mod zeros;
