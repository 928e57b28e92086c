//! Who makes a change: the client of a connection, and the user that a request names.

ghost use Rattle.tfs_calls.specs.Reply.{reply_value};
ghost use Rattle.tfs_serve.specs.Hold.{IsRecord};

use crate::hold::Hold;
use std::alloc::{AllocError, Global};
use std::cell::Cell;
use std::net::IpAddr;
use std::str::{self, FromStr};
use tfs_calls::Reply;
use tfs_framing::Request;

/// The names of the fields with which a proxy names the client of a request, in any case.
#[derive(Clone, Copy)]
pub struct ClientFields<'f> {
    /// The field with the user.
    pub user: Option<&'f str>,
    /// The field with the client's address.
    pub address: Option<&'f str>,
}

impl ClientFields<'static> {
    /// No fields.
    pub const NONE: ClientFields<'static> = ClientFields {
        user: None,
        address: None,
    };
}

impl<'f> ClientFields<'f> {
    /// Returns true if there is a field.
    pub fn is_any(&self) -> bool {
        self.user.is_some() || self.address.is_some()
    }
}

/// The client that made a change, as far as it is known.
#[derive(Clone, Copy)]
pub struct Client<'c> {
    /// The text of the address; none if it isn't known.
    pub address: &'c [u8],
    /// The bytes of the user's name; none if the user isn't known.
    pub user: &'c [u8],
}

/// What is known of the client of the present request. No clause knows what it holds.
#[derive(Drop)]
pub(crate) struct Noted {
    alloc: Global,
    address: Cell<Option<IpAddr>>,
    /// The text of the address.
    text: Cell<Vec<u8>>,
    user: Cell<Vec<u8>>,
}

impl Noted {
    /// Knows nothing of the client.
    pub(crate) fn new(alloc: Global) -> Noted {
        Noted {
            alloc,
            address: Cell::new(None),
            text: Cell::new(Vec::new(alloc)),
            user: Cell::new(Vec::new(alloc)),
        }
    }

    /// Notes the address of a connection's client. Without memory it isn't known.
    pub(crate) fn note_address(&self, address: Option<IpAddr>) {
        if self.address.get() == address {
            return;
        }
        let (address, text) = match text_of(self.alloc, address) {
            Ok(text) => (address, text),
            Err(_) => (None, Vec::new(self.alloc)),
        };
        self.address.set(address);
        self.text.set(text);
    }

    /// Notes what a request says of its client in these fields. Without memory the user isn't
    /// known.
    pub(crate) fn note_request(&self, request: &Request, fields: ClientFields<'_>) {
        if let Some(name) = fields.address {
            self.note_address(request.field(name.as_bytes()).and_then(address_in));
        }
        if let Some(name) = fields.user {
            let mut user = self.user.replace(Vec::new(self.alloc));
            user.clear();
            if let Some(value) = request.field(name.as_bytes()) {
                let _ = user.extend_from_slice(value);
            }
            self.user.set(user);
        }
    }

    /// Has the hold record the client of an accepted change. Returns the number of the record; 0,
    /// without a record, for another reply.
    pub(crate) fn record<H: Hold>(&self, hold: &H, reply: &Reply) -> u64
        ensures { IsRecord H.recorded (reply_value reply.now) result }
    {
        let Reply::Done(position) = reply else {
            return 0;
        };
        let user = self.user.replace(Vec::new(self.alloc));
        let text = self.text.replace(Vec::new(self.alloc));
        let client = Client {
            address: text.as_slice(),
            user: user.as_slice(),
        };
        let number = hold.record(*position, client);
        self.text.set(text);
        self.user.set(user);
        number
    }
}

/// Returns the text of an address; none if there is no address.
fn text_of(alloc: Global, address: Option<IpAddr>) -> Result<Vec<u8>, AllocError> {
    match address {
        Some(address) => Ok(format!(in alloc; "{address}")?.into_bytes()),
        None => Ok(Vec::new(alloc)),
    }
}

/// Returns the address in the value of a field, if it is one.
fn address_in(value: &[u8]) -> Option<IpAddr> {
    IpAddr::from_str(str::from_utf8(value).ok()?).ok()
}
