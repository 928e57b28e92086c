//! Listeners on the loopback interface, and connections to them.

use std::alloc::Global;
use std::io;
use std::io::Write;
use std::net::{Net, TcpListener, TcpStream};
use std::process::Abort;

/// Returns a connection to a listener, on which these requests were sent.
pub(crate) fn asking<R: Abort + Net<Stream = TcpStream>>(
    rt: &R,
    listener: &TcpListener,
    requests: &str,
) -> TcpStream {
    let address = listener.local_addr().ok().expect(rt, "an address");
    let stream = TcpStream::connect(rt, address);
    let mut stream = stream.ok().expect(rt, "a connection");
    assert!(rt; stream.write_all(requests.as_bytes()).is_ok());
    stream
}

/// Checks that a connection has these replies, and then ends.
pub(crate) fn is_answered(rt: &(impl Alloc<A = Global> + Abort), stream: TcpStream, replies: &str) {
    let told = io::read_to_string(rt.alloc(), stream);
    assert!(rt; told.ok().expect(rt, "replies").as_str() == replies);
}

/// Returns a listener on the loopback interface.
pub(crate) fn listener_of<R: Abort + Net<Stream = TcpStream, Listener = TcpListener>>(
    rt: &R,
) -> TcpListener {
    let listener = TcpListener::bind(rt, "127.0.0.1:0");
    listener.ok().expect(rt, "a listener")
}
