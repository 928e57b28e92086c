//! Types that can be sent to other threads or shared by several. The functions compute nothing:
//! they are laws of types.

use crate::session::Session;
use crate::shared::Shared;
use tfs_published::Naming;
use tfs_records::Sink;

fn takes_send<T: Send>(_: &T) {}

fn takes_sync<T: Sync>(_: &T) {}

/// A session can be sent to another thread.
pub fn a_session_is_send<J: Naming + Send + Sync>(session: &Session<J>) {
    takes_send(session);
}

/// Several threads can use a shared table at the same time, if its sink can be sent to another
/// thread.
pub fn a_shared_table_is_sync<J: Naming + Send + Sync, K: Sink + Send>(shared: &Shared<J, K>) {
    takes_sync(shared);
}
