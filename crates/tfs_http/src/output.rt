//! Writing of texts to an outlet.

ghost use Rattle.std.specs.Prelude.{◌≡◌, ◌≤◌, ◌+◌, ◌++◌, Err, length, OnOk, IfErr};
ghost use Rattle.std.specs.Io.KnownBytes.{Appends};
ghost use Rattle.tfs_http.specs.Lent.{TellsWriter, WritesFront, WritesPart};
ghost use Rattle.tfs_http.specs.declared.fault.ServeFault.TheVariants.{Write as WriteFault, NoMemory};
ghost use Rattle.tfs_escapes.specs.Room.{HasRoom};

use crate::fault::ServeFault;
use crate::impact_body::ImpactBody;
use crate::lent::Outlet;

/// The maximum length in bytes of two texts that are joined before they are written.
pub const JOINED_BYTES: usize = 16_384;

/// The maximum length in bytes of a piece of a body that is assembled before it is written.
pub const PIECE_BYTES: usize = 65_536;

/// Writes two texts. If they have at most 16,384 bytes together, appends the second to the first,
/// so that one write can take both; otherwise writes the second without a copy.
pub fn write_joined<W: Outlet>(
    writer: &mut W,
    text: &mut Vec<u8>,
    more: &[u8],
) -> Result<(), ServeFault>
    ensures ok { OnOk result (Appends (W.contents writer.old) (W.contents writer.new) (text.old.items ++ more.now)) }
    ensures err { IfErr result (WritesPart (W.contents writer.old) (W.contents writer.new) (text.old.items ++ more.now)) }
    ensures memory { result ≡ Err NoMemory → length text.old.items + length more.now ≤ 16384 }
    ensures writer { TellsWriter result (W.failed writer.old) (W.failed writer.new) }
{
    if JOINED_BYTES.saturating_sub(text.len()) < more.len() {
        return write_both(writer, text.as_slice(), more);
    }
    if text.extend_from_slice(more).is_err() {
        return Err(ServeFault::NoMemory);
    }
    write_out(writer, text.as_slice())
}

/// Writes a text, and then another one.
fn write_both<W: Outlet>(writer: &mut W, text: &[u8], more: &[u8]) -> Result<(), ServeFault>
    ensures ok { OnOk result (Appends (W.contents writer.old) (W.contents writer.new) (text.now ++ more.now)) }
    ensures err { IfErr result (λ fault. (fault ≡ WriteFault)
        × WritesFront (W.contents writer.old) (W.contents writer.new) (text.now ++ more.now)) }
    ensures writer { TellsWriter result (W.failed writer.old) (W.failed writer.new) }
{
    if let Err(fault) = write_out(writer, text) {
        return Err(fault);
    }
    write_out(writer, more)
}

/// Writes all of a text, with as many single writes as needed. After a fault the writer has a
/// prefix of the text, and not all of it.
pub fn write_out<W: Outlet>(writer: &mut W, text: &[u8]) -> Result<(), ServeFault>
    ensures ok { OnOk result (Appends (W.contents writer.old) (W.contents writer.new) text.now) }
    ensures err { IfErr result (λ fault. (fault ≡ WriteFault) × WritesFront (W.contents writer.old) (W.contents writer.new) text.now) }
    ensures writer { TellsWriter result (W.failed writer.old) (W.failed writer.new) }
{
    let mut rest = text;
    while !rest.is_empty() {
        match writer.write(rest) {
            Ok(taken) => {
                let (_, left) = rest.split_at(taken);
                rest = left;
            }
            Err(_) => return Err(ServeFault::Write),
        }
    }
    Ok(())
}

/// Writes a head, and then a body in pieces of at most 65,536 bytes. `text` has the first bytes of
/// the body, and the pieces are assembled in it.
pub fn write_in_pieces<W: Outlet>(
    writer: &mut W,
    head: &[u8],
    text: &mut Vec<u8>,
    left: ImpactBody<'_>,
) -> Result<(), ServeFault>
    requires { HasRoom text.old 65536 }
    ensures ok { OnOk result (Appends (W.contents writer.old) (W.contents writer.new) (head.now ++ (text.old.items ++ left.entry))) }
    ensures err { IfErr result (λ fault. (fault ≡ WriteFault)
        × WritesFront (W.contents writer.old) (W.contents writer.new) (head.now ++ (text.old.items ++ left.entry))) }
    ensures writer { TellsWriter result (W.failed writer.old) (W.failed writer.new) }
{
    if let Err(fault) = write_out(writer, head) {
        return Err(fault);
    }
    write_pieces(writer, text, left)
}

/// Writes a text and the rest of a body, in pieces of at most 65,536 bytes.
fn write_pieces<W: Outlet>(
    writer: &mut W,
    text: &mut Vec<u8>,
    body: ImpactBody<'_>,
) -> Result<(), ServeFault>
    requires { HasRoom text.old 65536 }
    ensures ok { OnOk result (Appends (W.contents writer.old) (W.contents writer.new) (text.old.items ++ body.entry)) }
    ensures err { IfErr result (λ fault. (fault ≡ WriteFault)
        × WritesFront (W.contents writer.old) (W.contents writer.new) (text.old.items ++ body.entry)) }
    ensures writer { TellsWriter result (W.failed writer.old) (W.failed writer.new) }
{
    let mut left = body;
    'pieces: loop {
        let is_last = left.fill(PIECE_BYTES, text);
        if let Err(fault) = write_out(writer, text.as_slice()) {
            return Err(fault);
        }
        if is_last {
            return Ok(());
        }
        text.clear();
    }
}
