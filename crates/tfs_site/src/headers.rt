//! What the header fields of a request say: its host, and its user.

ghost use Rattle.std.specs.Prelude.{option_copied, option_map};
ghost use Rattle.tfs_site.specs.Answers.{IsUserIn};

use http::HeaderValue;
use tfs_web::is_user;

/// Returns true if a host is a name of this machine, with or without a port.
pub(crate) fn is_own_host(host: Option<&HeaderValue>) -> bool {
    let Some(host) = host else {
        return false;
    };
    let Ok(text) = host.to_str() else {
        return false;
    };
    let name = match text.rsplit_once(':') {
        Some((name, port)) if port.bytes().all(|byte| byte.is_ascii_digit()) => name,
        _ => text,
    };
    name == "localhost" || name == "127.0.0.1" || name == "[::1]"
}

/// Returns the user's name in a header field, if it is valid.
pub(crate) fn user_in(field: Option<&HeaderValue>) -> Option<&str>
    ensures { IsUserIn (option_copied field.entry) (option_map (λ user. user.now) result) }
{
    match field?.to_str() {
        Ok(text) if is_user(text) => Some(text),
        _ => None,
    }
}
