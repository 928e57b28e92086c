//! The addresses in the body of an impact's reply, produced as far as a vector has room for them.

ghost use Rattle.std.specs.Prelude.{◌≡◌, ◌≢◌, ◌≤◌, ◌<◌, ◌-◌, [], ◌∷◌, ◌++◌, IfSome, IfNone, Some, length, vec_len};
ghost use Rattle.json.specs.Print.{escape};
ghost use Rattle.tfs_escapes.specs.Room.{HasRoom};
ghost use Rattle.tfs_http.specs.Pieces.{IsRun, addresses_left, after_addresses, before_address, begun_text, place_text, steps_left, with_address};

use tfs_escapes::{tell, tell_escaped};
use tfs_index::Version;

/// The text that comes next: bytes that are written unchanged, and then the two parts of an
/// address, which are escaped.
#[derive(Clone, Copy)]
pub(crate) struct BegunText<'r> {
    pub(crate) plain: &'r [u8],
    pub(crate) front: &'r [u8],
    pub(crate) tail: &'r [u8],
}

/// The rest of the addresses: the text that comes next, whether an address came before, and the
/// numbers of the remaining instances.
#[derive(Clone, Copy)]
pub(crate) struct BodyPlace<'r> {
    pub(crate) begun: BegunText<'r>,
    pub(crate) later: bool,
    pub(crate) numbers: &'r [usize],
}

impl<'r> BegunText<'r> {
    /// Creates a text of bytes that are written unchanged.
    pub(crate) fn plain(plain: &'r [u8]) -> BegunText<'r>
        ensures { begun_text result ≡ plain.now }
    {
        BegunText {
            plain,
            front: b"",
            tail: b"",
        }
    }
}

/// Appends the addresses until the vector has `limit` bytes, and returns the rest.
pub(crate) fn tell_addresses<'r>(
    version: &'r Version,
    place: BodyPlace<'r>,
    limit: usize,
    out: &mut Vec<u8>,
) -> BodyPlace<'r>
    requires { HasRoom out.old limit }
    ensures joined { out.new.items ++ place_text version.now result ≡ out.old.items ++ place_text version.now place.entry }
    ensures room { HasRoom out.new limit }
    ensures full { result.begun.plain.now ≢ [] → vec_len out.new ≡ limit }
    ensures done { result.begun.plain.now ≡ [] → place_text version.now result ≡ [] }
{
    let mut left = place;
    'places: loop {
        left.begun = tell_begun(left.begun, limit, out);
        if !left.begun.plain.is_empty() {
            return left;
        }
        match next_place(version, left.later, left.numbers) {
            Some(next) => left = next,
            None => return left,
        }
    }
}

/// Appends the text that comes next, and returns its rest.
fn tell_begun<'r>(begun: BegunText<'r>, limit: usize, out: &mut Vec<u8>) -> BegunText<'r>
    requires { HasRoom out.old limit }
    ensures joined { out.new.items ++ begun_text result ≡ out.old.items ++ begun_text begun.entry }
    ensures room { HasRoom out.new limit }
    ensures full { result.plain.now ≢ [] → vec_len out.new ≡ limit }
    ensures done { result.plain.now ≡ [] → begun_text result ≡ [] }
{
    let plain = tell(begun.plain, limit, out);
    if plain.is_empty() {
        return tell_parts(begun.front, begun.tail, limit, out);
    }
    BegunText { plain, ..begun }
}

/// Appends the two parts of an address, and returns the rest.
fn tell_parts<'r>(front: &'r [u8], tail: &'r [u8], limit: usize, out: &mut Vec<u8>) -> BegunText<'r>
    requires { HasRoom out.old limit }
    ensures joined { out.new.items ++ begun_text result ≡ out.old.items ++ (escape front.now ++ escape tail.now) }
    ensures room { HasRoom out.new limit }
    ensures full { result.plain.now ≢ [] → vec_len out.new ≡ limit }
    ensures done { result.plain.now ≡ [] → begun_text result ≡ [] }
{
    let (plain, front) = tell_escaped(front, limit, out);
    if !plain.is_empty() {
        return BegunText { plain, front, tail };
    }
    let (plain, tail) = tell_escaped(tail, limit, out);
    BegunText {
        plain,
        front: b"",
        tail,
    }
}

/// Returns the place after the current text: the next address, or the quote that closes the last
/// one, or `None` if nothing is left.
fn next_place<'r>(version: &'r Version, later: bool, numbers: &'r [usize]) -> Option<BodyPlace<'r>>
    ensures some { IfSome result (λ p. place_text version.now p ≡ addresses_left version.now later numbers.now) }
    ensures smaller { IfSome result (λ p. steps_left p.later p.numbers.now < steps_left later numbers.now) }
    ensures none { IfNone result (addresses_left version.now later numbers.now ≡ []) }
{
    if let Some(place) = listed_place(version, later, numbers) {
        return Some(place);
    }
    if let Some((number, behind)) = numbers.split_first() {
        return Some(place_at(version, later, *number, behind));
    }
    if later {
        return Some(BodyPlace {
            begun: BegunText::plain(b"\""),
            later: false,
            numbers,
        });
    }
    None
}

/// Returns the addresses of the first consecutive numbers, if the version keeps their text.
fn listed_place<'r>(
    version: &'r Version,
    later: bool,
    numbers: &'r [usize],
) -> Option<BodyPlace<'r>>
    ensures some { IfSome result (λ p. place_text version.now p ≡ addresses_left version.now later numbers.now) }
    ensures smaller { IfSome result (λ p. steps_left p.later p.numbers.now < steps_left later numbers.now) }
{
    let (first, _) = numbers.split_first()?;
    let end = run_end(numbers, *first);
    if end == *first {
        return None;
    }
    let text = version.address_list(*first, end)?;
    let (_, shown) = text.split_at_checked(if later { 0 } else { 2 })?;
    let (_, behind) = numbers.split_at(end - *first);
    Some(BodyPlace {
        begun: BegunText::plain(shown),
        later: true,
        numbers: behind,
    })
}

/// Returns the end of the consecutive numbers that start with `first`: the number after the last
/// one.
fn run_end(numbers: &[usize], first: usize) -> usize
    ensures run { IsRun numbers.now first (result - first) }
    ensures within { (first ≤ result) × (result - first ≤ length numbers.now) }
{
    let mut end = first;
    for number in numbers {
        if *number != end || end == usize::MAX {
            return end;
        }
        end += 1;
    }
    end
}

/// Returns the address of an instance, if the number has one, followed by the remaining ones.
fn place_at<'r>(
    version: &'r Version,
    later: bool,
    number: usize,
    behind: &'r [usize],
) -> BodyPlace<'r>
    ensures text { place_text version.now result ≡ addresses_left version.now later (number ∷ behind.now) }
    ensures smaller { steps_left result.later result.numbers.now < steps_left later (number ∷ behind.now) }
{
    let doc = version.doc();
    if number >= doc.len() {
        return BodyPlace {
            begun: BegunText::plain(b""),
            later,
            numbers: behind,
        };
    }
    let (front, tail) = doc.address(number).parts();
    BodyPlace {
        begun: BegunText {
            plain: before_address(later),
            front: front.as_bytes(),
            tail: tail.as_bytes(),
        },
        later: true,
        numbers: behind,
    }
}

/// Returns the bytes before an address.
fn before_address(later: bool) -> &'static [u8]
    ensures { result.now ≡ before_address later }
{
    if later { b"\",\"" } else { b"\"" }
}
