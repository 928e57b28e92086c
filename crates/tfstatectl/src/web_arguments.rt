//! The arguments of `web`.

use crate::argument::{Argument, Takes, Value};
use clap::builder::ValueParser;

/// The address or socket of the page.
pub(crate) const LISTEN_LOCALLY: Argument = Argument {
    name: "listen",
    takes: Takes::Value(
        "ADDRESS",
        Value::Default(ValueParser::String, "127.0.0.1:8081"),
    ),
    help: "Listens at a loopback address HOST:PORT, or unix:PATH for a socket that only its user and group may use",
};

/// The access file.
pub(crate) const ACCESS: Argument = Argument {
    name: "access",
    takes: Takes::Value("FILE", Value::Optional(ValueParser::String)),
    help: "Shows each user only the workspaces that this access file of nginx lets the user read",
};

/// The header field with the user's name.
pub(crate) const USER_OF_PAGE: Argument = Argument {
    name: "user-header",
    takes: Takes::Value("NAME", Value::Default(ValueParser::String, "X-Remote-User")),
    help: "The header field in which nginx gives the user's name",
};

/// The folder of the page's files.
pub(crate) const PAGE: Argument = Argument {
    name: "page",
    takes: Takes::Value(
        "FOLDER",
        Value::Default(ValueParser::String, "/usr/share/tfstated/web"),
    ),
    help: "The folder with the page's files",
};
