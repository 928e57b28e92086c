//! How far a read takes a session.

ghost use Rattle.std.specs.Prelude.{IfSome, length, ◌<◌};
ghost use Rattle.tfs_published.specs.Since.{IsLater, IsDue};
ghost use Rattle.tfs_published.specs.Snapshot.{since_at};

use crate::token::Token;

/// Returns the token up to which a session reads a name that has this number in a copy. It is the
/// copy's last token if the mark of that is synced; otherwise it is the earliest token that has
/// what the session had seen and all changes of the name.
pub(crate) fn due(
    last: &Token,
    since: &[Option<Token>],
    number: Option<usize>,
    earlier: &Token,
    synced: u64,
) -> Token
    requires number { IfSome number (λ number. number < length since.now) }
    ensures value { IsDue last.now (since_at since.now number) earlier.now synced result }
{
    if last.mark() <= synced {
        return last.again();
    }
    match number {
        Some(number) => later(&since[number], earlier),
        None => earlier.again(),
    }
}

/// Returns the later one of an earlier token and the token since which a name is unchanged.
fn later(since: &Option<Token>, earlier: &Token) -> Token
    ensures value { IsLater since.now earlier.now result }
{
    match since {
        Some(since) if since.count() > earlier.count() => since.again(),
        Some(_) | None => earlier.again(),
    }
}
