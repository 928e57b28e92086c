//! The listener of a server, on a TCP address or a unix socket.

use std::net::TcpListener;
use std::os::unix::fs::FileTypeExt;
use std::os::unix::net::UnixStream;
use std::{fs, io};
use tfs_files::{CommandEnd, CommandFault, FaultPlace};
use tfs_serve::{AnyListener, bind_local, limit_waits};

/// The maximal length of a socket's path, in bytes (unix(7) of Linux).
const MAX_PATH: usize = 107;

/// Listens on an address, or on the socket of `unix:PATH`.
pub(crate) fn listen(rt: &HostRuntime, place: &str) -> Result<AnyListener, CommandEnd> {
    match place.strip_prefix("unix:") {
        Some(path) => listen_locally(rt, path),
        None => listen_at(rt, place),
    }
}

/// Listens on a TCP address.
fn listen_at(rt: &HostRuntime, address: &str) -> Result<AnyListener, CommandEnd> {
    let bound = match TcpListener::bind(rt, address) {
        Ok(listener) => limit_waits(listener),
        Err(error) => Err(error),
    };
    match bound {
        Ok(listener) => Ok(AnyListener::Tcp(listener)),
        Err(_) => Err(CommandEnd::at(FaultPlace::Address, CommandFault::CannotBind)),
    }
}

/// Makes a unix socket and listens on it. Replaces a socket that a killed server has left.
fn listen_locally(rt: &HostRuntime, path: &str) -> Result<AnyListener, CommandEnd> {
    if path.is_empty() || path.len() > MAX_PATH {
        return Err(CommandEnd::at(FaultPlace::Address, CommandFault::SocketPath));
    }
    if let Err(fault) = clear(rt, path) {
        return Err(CommandEnd::at(FaultPlace::Address, fault));
    }
    match bind_local(rt, path) {
        Ok(listener) => Ok(AnyListener::Local(listener)),
        Err(error) => Err(CommandEnd::by_system(
            FaultPlace::Address,
            CommandFault::CannotBind,
            &error,
        )),
    }
}

/// Removes the socket at a path, unless a server listens on it. Refuses a file of another kind.
fn clear(rt: &HostRuntime, path: &str) -> Result<(), CommandFault> {
    let Ok(found) = fs::symlink_metadata(rt, path) else {
        return Ok(());
    };
    if !found.file_type().is_socket() {
        return Err(CommandFault::NotSocket);
    }
    if !is_left(rt, path) {
        return Err(CommandFault::CannotBind);
    }
    match fs::remove_file(rt, path) {
        Ok(()) => Ok(()),
        Err(_) => Err(CommandFault::CannotBind),
    }
}

/// Returns true if nobody listens on the socket at a path.
fn is_left(rt: &HostRuntime, path: &str) -> bool {
    match UnixStream::connect(rt, path) {
        Ok(_) => false,
        Err(error) => error.kind() == io::ErrorKind::ConnectionRefused,
    }
}
