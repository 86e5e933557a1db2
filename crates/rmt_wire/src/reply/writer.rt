//! Writes replies.

ghost use Rattle.std.specs.Prelude.{◌≡◌, ◌≤◌, OnOk, OnErr};
ghost use Rattle.std.specs.Io.KnownBytes.{Appends};
ghost use Rattle.rmt_wire.specs.Counted.{HasRisen};
ghost use Rattle.rmt_wire.specs.Lent.{plain_reply};
ghost use Rattle.rmt_wire.specs.Reply.{Wanted, ReplyHasSpelling, AnswersTo, SpellsReply, reply_text};
ghost use Rattle.rmt_wire.specs.ReplyWriter.{AppendsBeginning};

use crate::counted::Counted;
use crate::reply::Reply;
use crate::reply::parts::parts;
use std::io::Write;
use thiserror::Error;

/// A write of a reply failed or accepted no byte. A beginning of the reply was written.
#[derive(Clone, Copy, Debug, PartialEq, Eq, Error)]
#[error("Output")]
pub struct OutputFault;

/// Writes the bytes that `push_reply` appends, for the same replies. Allocates nothing. The head is
/// one write if the stream accepts all of it, and so are the data.
///
/// Fails at the first write that fails or accepts no byte. Then `out` counts the failure.
pub fn write_reply<W: Write>(out: &mut Counted<W>, reply: &Reply<'_>) -> Result<(), OutputFault>
    requires { ReplyHasSpelling (plain_reply reply.now) }
    ensures written { OnOk result (Appends (W.contents out.old.inner) (W.contents out.new.inner) (reply_text (plain_reply reply.now))) }
    ensures beginning { OnErr result
        (AppendsBeginning (W.contents out.old.inner) (W.contents out.new.inner) (reply_text (plain_reply reply.now))) }
    ensures fault { OnErr result (HasRisen out.old.failures out.new.failures) }
    ensures counted { out.old.failures ≤ out.new.failures }
    ensures steady { OnOk result (out.new.failures ≡ out.old.failures) }
    ensures left { out.new.left ≡ out.old.left }
    ensures spelled { (wanted : Wanted) → AnswersTo (plain_reply reply.now) wanted
        → SpellsReply (reply_text (plain_reply reply.now)) (plain_reply reply.now) wanted }
{
    let (head, data) = parts(reply);
    output(out, head.as_slice())?;
    output(out, data)
}

// Writes a whole text.
pub(crate) fn output<W: Write>(out: &mut Counted<W>, text: &[u8]) -> Result<(), OutputFault>
    ensures written { OnOk result (Appends (W.contents out.old.inner) (W.contents out.new.inner) text.now) }
    ensures beginning { OnErr result (AppendsBeginning (W.contents out.old.inner) (W.contents out.new.inner) text.now) }
    ensures fault { OnErr result (HasRisen out.old.failures out.new.failures) }
    ensures counted { out.old.failures ≤ out.new.failures }
    ensures steady { OnOk result (out.new.failures ≡ out.old.failures) }
    ensures left { out.new.left ≡ out.old.left }
{
    let mut at = 0;
    while at < text.len() {
        match out.write(&text[at..]) {
            Ok(0) => return Err(OutputFault),
            Ok(n) => at += n,
            Err(_) => return Err(OutputFault),
        }
    }
    Ok(())
}
