//! One mtio operation at a peer.
ghost use Rattle.std.specs.Prelude.{◌≡◌, ◌≤◌, ◌+◌, ◌++◌, codes, length, decimal};
ghost use Rattle.rmt_wire.specs.Number.{IsLine};
ghost use Rattle.rmt_wire.specs.declared.limits.TheConstants.{NUMBER_LIMIT};
ghost use Rattle.rdump_net.specs.Ends.{stream_ends, stream_kind};
ghost use Rattle.remote_tape.specs.Call.{plain_number, plain_result};
ghost use Rattle.rdump_net.specs.Operation.{mode_for, next_of, reply_line, IsMt, IsOperated, IsOperationReply, IsReplyPrinted};
ghost use Rattle.rmt_wire.specs.Print.{IsPrinted};

use crate::Peer;
use crate::lines::{LINE_ROOM, push_part};
use arrayvec::ArrayString;
use console::ExitStatus;
use remote_tape::{CallFault, RemoteTape, TapeReply};
use rmt_wire::fcntl::{O_RDONLY, O_RDWR};
use rmt_wire::mtio::MTWEOF;
use rmt_wire::{Counted, Request, print_text};
use std::alloc::Global;
use std::io::Write;

/// Does the mtio operation `op` with the given count on a device, over a new connection. It prints
/// the server's reply on one line: `A1`, or `E5 Input/output error`.
///
/// It opens the device, for reading and writing if the operation is `MTWEOF` and for reading if
/// not, and closes it after the operation. If the open is refused, that reply is printed instead,
/// and the close is next. The reply to the close is ignored.
///
/// The device is one line of at most `LINE_LIMIT` bytes, and both numbers are at most
/// `NUMBER_LIMIT`.
///
/// Returns the exit status of `rdump mt`: `Success` if the operation was done and the reply was
/// printed, else `Abnormal`. Nothing is printed if an allocation fails or no reply comes.
pub fn mt<P: Peer, W: Write>(
    alloc: Global,
    peer: &mut P,
    device: &[u8],
    op: u32,
    count: u32,
    out: &mut Counted<W>,
) -> ExitStatus
    requires device { IsLine device.now }
    requires op { op ≤ NUMBER_LIMIT }
    requires count { count ≤ NUMBER_LIMIT }
    ensures { IsMt (stream_kind P.tells W.contents) device.now op count
        (stream_ends peer.old out.old) (stream_ends peer.new out.new) result }
{
    let Ok(mut tape) = RemoteTape::new(alloc) else {
        return ExitStatus::Abnormal;
    };
    if !peer.connect() {
        return ExitStatus::Abnormal;
    }
    let status = operate(&mut tape, peer, device, op, count, out);
    peer.hang_up();
    status
}

fn operate<P: Peer, W: Write>(
    tape: &mut RemoteTape,
    peer: &mut P,
    device: &[u8],
    op: u32,
    count: u32,
    out: &mut Counted<W>,
) -> ExitStatus
    requires device { IsLine device.now }
    requires op { op ≤ NUMBER_LIMIT }
    requires count { count ≤ NUMBER_LIMIT }
    ensures { IsOperated (stream_kind P.tells W.contents) device.now op count
        (stream_ends peer.old out.old) (stream_ends peer.new out.new) result }
{
    let Ok(answer) = ask(tape, peer, device, op, count) else {
        return ExitStatus::Abnormal;
    };
    let status = print_reply(&answer, out);
    let _ = tape.close(peer);
    status
}

fn ask<P: Peer>(
    tape: &mut RemoteTape,
    peer: &mut P,
    device: &[u8],
    op: u32,
    count: u32,
) -> Result<TapeReply, CallFault>
    requires device { IsLine device.now }
    requires op { op ≤ NUMBER_LIMIT }
    requires count { count ≤ NUMBER_LIMIT }
    ensures { IsOperationReply (next_of device.now op count) P.tells peer.old peer.new (plain_result result) }
{
    let mode = mode_of(op);
    let opened = tape.call(peer, &Request::Open { device, mode })?;
    if !opened.is_done() {
        return Ok(opened);
    }
    tape.call(peer, &Request::Op { op, count })
}

fn mode_of(op: u32) -> u32
    ensures { result ≡ mode_for op }
{
    if op == MTWEOF { O_RDWR } else { O_RDONLY }
}

fn print_reply<W: Write>(answer: &TapeReply, out: &mut Counted<W>) -> ExitStatus
    ensures { IsReplyPrinted W.contents (plain_number answer.now) out.old out.new result }
{
    let printed = print_answer(answer, out);
    if answer.is_done() && printed {
        ExitStatus::Success
    } else {
        ExitStatus::Abnormal
    }
}

fn print_answer<W: Write>(answer: &TapeReply, out: &mut Counted<W>) -> bool
    ensures { IsPrinted W.contents (reply_line (plain_number answer.now)) out.old out.new result }
{
    match answer {
        TapeReply::Done { number } => print_number(out, "A", *number, "\n"),
        TapeReply::Error { number, text } => {
            print_number(out, "E", u64::from(*number), " ") && print_line(out, text)
        }
    }
}

#[tactic(auto, using(crate::proofs::Printed::printed_both))]
fn print_line<W: Write>(out: &mut Counted<W>, text: &[u8]) -> bool
    ensures { IsPrinted W.contents (text.now ++ codes "\n") out.old out.new result }
{
    print_text(out, text) && print_text(out, b"\n")
}

fn print_number<W: Write>(out: &mut Counted<W>, letter: &str, number: u64, end: &str) -> bool
    requires { length letter.now + length end.now ≤ 2 }
    ensures { IsPrinted W.contents (letter.now ++ decimal number ++ end.now) out.old out.new result }
{
    let mut line = ArrayString::<LINE_ROOM>::new();
    push_part(&mut line, letter, number);
    line.push_str(end);
    print_text(out, line.as_bytes())
}
