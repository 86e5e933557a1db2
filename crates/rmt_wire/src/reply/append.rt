//! Appends a reply to a vector.

ghost use Rattle.std.specs.Prelude.{◌≡◌, ◌+◌, ◌<◌, ◌++◌, length, OnOk, OnErr};
ghost use Rattle.std.specs.Vec.{vec_capacity, vec_len};
ghost use Rattle.rmt_wire.specs.Lent.{plain_reply};
ghost use Rattle.rmt_wire.specs.Reply.{AnswersTo, ReplyHasSpelling, SpellsReply, Wanted, reply_text};

use crate::append::push_text;
use crate::reply::Reply;
use crate::reply::parts::parts;
use std::alloc::AllocError;

/// Appends the bytes that are sent for a reply, with no leading zeros. Its number, or the count of
/// its data, must be at most `NUMBER_LIMIT`, and its text one line of at most `LINE_LIMIT` bytes.
/// Fails as `push_request` does.
#[tactic(auto, using(crate::proofs::Spelling::reply_text_spells))]
pub fn push_reply(out: &mut Vec<u8>, reply: &Reply<'_>) -> Result<(), AllocError>
    requires { ReplyHasSpelling (plain_reply reply.now) }
    ensures appended { OnOk result (out.new.items ≡ out.old.items ++ reply_text (plain_reply reply.now)) }
    ensures unchanged { OnErr result ((out.new.items ≡ out.old.items) × (vec_capacity out.new ≡ vec_capacity out.old)) }
    ensures full { OnErr result (vec_capacity out.old < vec_len out.old + length (reply_text (plain_reply reply.now))) }
    ensures spelled { (wanted : Wanted) → AnswersTo (plain_reply reply.now) wanted
        → SpellsReply (reply_text (plain_reply reply.now)) (plain_reply reply.now) wanted }
{
    let (head, data) = parts(reply);
    push_text(out, head.as_slice(), data)
}
