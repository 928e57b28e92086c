//! The reply to an impact query, whose body is written in pieces.

ghost use Rattle.std.specs.Prelude.{◌≡◌, [], ◌++◌, IsTrue, IfOk, IfErr, OnOk};
ghost use Rattle.std.specs.Arc.{arc_value};
ghost use Rattle.std.specs.Io.KnownBytes.{Appends};
ghost use Rattle.tfs_calls.specs.Reply.{impact};
ghost use Rattle.tfs_escapes.specs.Room.{HasRoom};
ghost use Rattle.tfs_http.specs.ReplyText.{head_text, impact_body, reply_text};
ghost use Rattle.tfs_http.specs.Lent.{TellsWriter, WritesPart};

use std::alloc::{AllocError, Global};
use tfs_calls::Impact;
use tfs_framing::Form;
use tfs_http::{
    ImpactBody, Outlet, PIECE_BYTES, ServeFault, write_impact_head, write_in_pieces, write_joined,
    write_out,
};

/// The capacity for the head of a reply, whose Content-Length has at most 39 digits.
const HEAD_BYTES: usize = 160;

/// A reply before its first byte is written: its head, and the rest of its body after the first
/// piece.
#[derive(Drop)]
struct BegunReply<'r> {
    head: Vec<u8>,
    left: ImpactBody<'r>,
    is_whole: bool,
}

/// Writes the reply to an impact query. The buffer `text` is overwritten. All memory is allocated
/// before the first byte is written, and its size doesn't depend on the length of the body.
pub(crate) fn send_impact<W: Outlet>(
    alloc: Global,
    text: &mut Vec<u8>,
    writer: &mut W,
    answer: &Impact,
    form: Form,
) -> Result<(), ServeFault>
    ensures ok { OnOk result (Appends (W.contents writer.old) (W.contents writer.new)
        (reply_text (impact (arc_value answer.now.version) answer.now.chosen answer.now.position) form)) }
    ensures err { IfErr result (WritesPart (W.contents writer.old) (W.contents writer.new)
        (reply_text (impact (arc_value answer.now.version) answer.now.chosen answer.now.position) form)) }
    ensures writer { TellsWriter result (W.failed writer.old) (W.failed writer.new) }
{
    let Ok(begun) = begin(alloc, text, answer, form) else {
        return Err(ServeFault::NoMemory);
    };
    if form.bare {
        return write_out(writer, begun.head.as_slice());
    }
    write_begun(writer, text, begun)
}

/// Makes the head of a reply, and overwrites `text` with the first piece of its body.
fn begin<'r>(
    alloc: Global,
    text: &mut Vec<u8>,
    answer: &'r Impact,
    form: Form,
) -> Result<BegunReply<'r>, AllocError>
    ensures body { IfOk result (λ begun. text.new.items ++ begun.left
        ≡ impact_body (arc_value answer.now.version) answer.now.chosen answer.now.position) }
    ensures head { IfOk result (λ begun. begun.head.items ≡ head_text 200 [] form (text.new.items ++ begun.left)) }
    ensures room { OnOk result (HasRoom text.new 65536) }
    ensures whole { IfOk result (λ begun. IsTrue begun.is_whole → begun.left ≡ []) }
{
    let mut left = ImpactBody::new(alloc, answer)?;
    text.clear();
    text.reserve(PIECE_BYTES)?;
    let is_whole = left.fill(PIECE_BYTES, text);
    let mut head = Vec::with_capacity(alloc, HEAD_BYTES)?;
    write_impact_head(text.as_slice(), &left, form, &mut head)?;
    Ok(BegunReply {
        head,
        left,
        is_whole,
    })
}

/// Writes a head, the first piece of a body, and the rest of it.
fn write_begun<W: Outlet>(
    writer: &mut W,
    text: &mut Vec<u8>,
    begun: BegunReply<'_>,
) -> Result<(), ServeFault>
    requires room { HasRoom text.old 65536 }
    requires whole { IsTrue begun.is_whole → begun.left ≡ [] }
    ensures ok { OnOk result (Appends (W.contents writer.old) (W.contents writer.new)
        (begun.entry.head.items ++ (text.old.items ++ begun.entry.left))) }
    ensures err { IfErr result (WritesPart (W.contents writer.old) (W.contents writer.new)
        (begun.entry.head.items ++ (text.old.items ++ begun.entry.left))) }
    ensures writer { TellsWriter result (W.failed writer.old) (W.failed writer.new) }
{
    let mut head = begun.head;
    if begun.is_whole {
        return write_joined(writer, &mut head, text.as_slice());
    }
    write_in_pieces(writer, head.as_slice(), text, begun.left)
}
