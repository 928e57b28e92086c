//! The buffer in which the texts of replies are assembled.

ghost use Rattle.std.specs.Prelude.{◌≡◌, [], if◌then◌else◌, IfErr, OnOk};
ghost use Rattle.std.specs.Io.KnownBytes.{Appends};
ghost use Rattle.tfs_calls.specs.Reply.{reply_value};
ghost use Rattle.tfs_http.specs.ReplyText.{reply_text};
ghost use Rattle.tfs_http.specs.Lent.{TellsWriter, WritesPart};

use crate::impact_reply::send_impact;
use std::alloc::{AllocError, Global};
use tfs_calls::Reply;
use tfs_framing::Form;
use tfs_http::{JOINED_BYTES, Outlet, ServeFault, body_of, write_head, write_joined};

/// A buffer for the text of a reply, which writes replies.
#[derive(Drop)]
pub struct ReplyBuffer {
    alloc: Global,
    /// It has the capacity for what one write takes, and keeps it.
    text: Vec<u8>,
}

impl ReplyBuffer {
    /// Creates an empty buffer.
    pub(crate) fn new(alloc: Global) -> Result<ReplyBuffer, AllocError> {
        Ok(ReplyBuffer {
            alloc,
            text: Vec::with_capacity(alloc, JOINED_BYTES)?,
        })
    }

    /// Writes the text of a reply. After an error only a part of the text was written.
    pub fn send<W: Outlet>(
        &mut self,
        writer: &mut W,
        reply: &Reply,
        form: Form,
    ) -> Result<(), ServeFault>
        ensures ok { OnOk result (Appends (W.contents writer.old) (W.contents writer.new) (reply_text (reply_value reply.now) form)) }
        ensures err { IfErr result (λ fault. WritesPart (W.contents writer.old) (W.contents writer.new) (reply_text (reply_value reply.now) form) fault) }
        ensures writer { TellsWriter result (W.failed writer.old) (W.failed writer.new) }
    {
        if let Reply::Impact(answer) = reply {
            return send_impact(self.alloc, &mut self.text, writer, answer, form);
        }
        send_whole(self.alloc, &mut self.text, writer, reply, form)
    }
}

/// Writes the text of a reply as `send` does, with its whole body in memory.
fn send_whole<W: Outlet>(
    alloc: Global,
    text: &mut Vec<u8>,
    writer: &mut W,
    reply: &Reply,
    form: Form,
) -> Result<(), ServeFault>
    ensures ok { OnOk result (Appends (W.contents writer.old) (W.contents writer.new) (reply_text (reply_value reply.now) form)) }
    ensures err { IfErr result (λ fault. WritesPart (W.contents writer.old) (W.contents writer.new) (reply_text (reply_value reply.now) form) fault) }
    ensures writer { TellsWriter result (W.failed writer.old) (W.failed writer.new) }
{
    let Ok(body) = body_of(alloc, reply) else {
        return Err(ServeFault::NoMemory);
    };
    text.clear();
    if write_head(reply, form, body.as_slice(), text).is_err() {
        return Err(ServeFault::NoMemory);
    }
    write_joined(writer, text, visible_body(form, body.as_slice()))
}

/// Returns what a form sends of a body: nothing of it if the form is bare.
fn visible_body(form: Form, body: &[u8]) -> &[u8]
    ensures { result.now ≡ (if form.bare then [] else body.now) }
{
    if form.bare { b"" } else { body }
}
