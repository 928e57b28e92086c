//! Connections: accepting them from a listener, and limiting their time.
#![tactic(auto)]

mod accepting;
mod any_listener;
mod connection;
mod lasting;
mod limits;
mod load;
mod parked;
mod paused;
mod reception;
mod timing;
mod transport;
mod waits;
mod written;

pub use accepting::{
    AcceptError, AcceptFault, Listener, Listening, PAUSE_MILLISECONDS, Remedy, let_wait,
    limit_waits, remedy_of, take_connection,
};
pub use any_listener::{AnyListener, AnyStream, LentListener, bind_local};
pub use connection::{Incoming, Outgoing};
pub use lasting::LastingStream;
pub use limits::{
    CROWDED_SLOW_MILLISECONDS, LOOK_MILLISECONDS, MAX_CROWD, MAX_CROWDED_IDLE_MILLISECONDS,
    MAX_ENDING_SECONDS, MAX_IDLE_SECONDS, MAX_PARKED, MAX_PARKED_SECONDS, MAX_REPLY_SECONDS,
    MAX_REQUEST_SECONDS, MAX_SLOW_BYTES_A_SECOND, MAX_WAIT_SECONDS, MAX_WAITING,
    REPLY_BYTES_A_SECOND, SLOW_BYTES_A_SECOND, SLOW_SECONDS, WORKERS_FOR_A_SLOW_CLIENT,
};
pub use load::Load;
pub use parked::ParkedConnections;
pub use paused::{Begun, Paused};
pub use reception::{Reception, Setting};
pub use timing::Timing;
pub use transport::Connection;
pub use written::{Text, Written};
