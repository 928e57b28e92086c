//! Appends texts to a vector up to a limit that its capacity covers.

ghost use Rattle.std.specs.Prelude.{◌≡◌, ◌≢◌, ◌<◌, ◌-◌, [], ◌++◌, length, drop, vec_len};
ghost use Rattle.json.specs.Print.{escape};
ghost use Rattle.tfs_escapes.specs.Room.{HasRoom};

use crate::escaped::first_run;

/// Appends bytes to a vector until it has `limit` bytes, and returns the remaining ones.
pub fn tell<'t>(bytes: &'t [u8], limit: usize, out: &mut Vec<u8>) -> &'t [u8]
    requires { HasRoom out.old limit }
    ensures joined { out.new.items ++ result.now ≡ out.old.items ++ bytes.now }
    ensures left { result.now ≡ drop (length bytes.now - length result.now) bytes.now }
    ensures room { HasRoom out.new limit }
    ensures full { result.now ≢ [] → vec_len out.new ≡ limit }
{
    let room = limit - out.len();
    let (now, later) = bytes.split_at(bytes.len().min(room));
    // The vector has enough capacity, so this doesn't fail.
    let _ = out.extend_from_slice(now);
    later
}

/// Appends the escaped form of a text to a vector until it has `limit` bytes. Returns the remaining
/// bytes of an escape or of unescaped text, which are to be appended unchanged, and the text after
/// them.
pub fn tell_escaped<'t>(text: &'t [u8], limit: usize, out: &mut Vec<u8>) -> (&'t [u8], &'t [u8])
    requires { HasRoom out.old limit }
    ensures joined { out.new.items ++ (result.0.now ++ escape result.1.now) ≡ out.old.items ++ escape text.now }
    ensures room { HasRoom out.new limit }
    ensures full { result.0.now ≢ [] → vec_len out.new ≡ limit }
    ensures done { result.0.now ≡ [] → result.1.now ≡ [] }
{
    let mut left: &[u8] = &[];
    let mut rest = text;
    'runs: while left.is_empty() && !rest.is_empty() {
        (left, rest) = tell_run(rest, limit, out);
    }
    (left, rest)
}

/// Does the same as `tell_escaped` for the first bytes of a text that need no escape, or for a
/// first byte that needs one.
fn tell_run<'t>(text: &'t [u8], limit: usize, out: &mut Vec<u8>) -> (&'t [u8], &'t [u8])
    requires { HasRoom out.old limit }
    ensures joined { out.new.items ++ (result.0.now ++ escape result.1.now) ≡ out.old.items ++ escape text.now }
    ensures room { HasRoom out.new limit }
    ensures full { result.0.now ≢ [] → vec_len out.new ≡ limit }
    ensures shorter { 0 < length text.now → length result.1.now < length text.now }
{
    let (shown, behind) = first_run(text);
    (tell(shown, limit, out), behind)
}
