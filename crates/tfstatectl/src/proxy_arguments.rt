//! The arguments of `serve` about a proxy in front of it.

use crate::argument::{Argument, Takes, Value};
use clap::builder::ValueParser;

/// The field of a request that names its user.
pub(crate) const USER_HEADER: Argument = Argument {
    name: "user-header",
    takes: Takes::Value("NAME", Value::Optional(ValueParser::String)),
    help: "Records the user that this field of a request names; a proxy must set it on each request",
};

/// The field of a request with its client's address.
pub(crate) const ADDRESS_HEADER: Argument = Argument {
    name: "address-header",
    takes: Takes::Value("NAME", Value::Optional(ValueParser::String)),
    help: "Records the client's address from this field of a request, which a proxy must set, instead of the connection's",
};
