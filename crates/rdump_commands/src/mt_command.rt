//! `rdump mt`.
ghost use Rattle.std.specs.Prelude.{◌≡◌, IfOk};
ghost use Rattle.console.specs.declared.status.ExitStatus.TheVariants.{Abnormal};
ghost use Rattle.rdump_commands.specs.Status.{IsMtStatus};
ghost use Rattle.rdump_args.specs.Rdump.{IsMtLine};

use console::{ExitStatus, PlainBytes};
use rdump_args::MtLine;
use rdump_net::{Peer, SocketPeer, mt};
use rdump_system::{ClientSystem, may_be_terminal, print_fault, report_unwritten};
use refusals::{TapeRequest, request_of};
use remote_tape::{FaultReport, TapeCause, TapeFault};
use rmt_wire::{Counted, find_byte};
use std::io::{self, Write};

/// Does one operation on a drive, as `rdump mt` does, and prints the server's reply. On a terminal,
/// control characters in it are printed as `?`. If the reply is an error, prints on standard error
/// what it means.
///
/// Returns `Success` if the operation was done and its reply was printed, and `Abnormal` otherwise.
pub fn run_mt<R: ClientSystem>(rt: &R, line: MtLine<'_>) -> ExitStatus
    requires { IsMtLine line }
    ensures { IsMtStatus result }
{
    match operate(rt, line) {
        Ok(status) => status,
        Err(fault) => fault.report(rt, &line),
    }
}

#[derive(Clone, Copy)]
enum MtFault {
    /// No reply came. The system's error, if it reports one.
    Unanswered(Option<io::Error>),
    Unwritten,
    /// The server refused this request with this errno.
    Refused(TapeRequest, u32),
}

impl MtFault {
    fn report<R: ClientSystem>(self, rt: &R, line: &MtLine<'_>) -> ExitStatus
        ensures { result ≡ Abnormal }
    {
        match self {
            MtFault::Unanswered(Some(error)) => print_fault(rt, line.to, error),
            MtFault::Unanswered(None) => {
                print_fault(rt, line.to, "the connection ended before the answer")
            }
            MtFault::Unwritten => report_unwritten(rt, ExitStatus::Abnormal),
            MtFault::Refused(request, number) => {
                let report = FaultReport {
                    fault: TapeFault {
                        request,
                        cause: TapeCause::Refused(number),
                    },
                    device: line.device,
                    failure: None,
                };
                print_fault(rt, line.to, report)
            }
        };
        ExitStatus::Abnormal
    }
}

fn operate<R: ClientSystem>(rt: &R, line: MtLine<'_>) -> Result<ExitStatus, MtFault>
    requires { IsMtLine line }
    ensures { IfOk result IsMtStatus }
{
    let mut peer = AskedPeer {
        socket: SocketPeer::new(rt, line.to, line.timeout),
        asked: TapeRequest::Open,
    };
    let mut answer = Vec::new(rt.alloc());
    let mut out = Counted::new(&mut answer);
    let device = line.device.as_bytes();
    let status = mt(rt.alloc(), &mut peer, device, line.op, line.count, &mut out);
    if answer.is_empty() {
        return Err(MtFault::Unanswered(peer.socket.failure().copied()));
    }
    let printed = match answer.strip_suffix(b"\n") {
        Some(text) if may_be_terminal(rt) => rt.println(PlainBytes(text)),
        _ => io::writer(rt).write_all(&answer),
    };
    if printed.is_err() {
        return Err(MtFault::Unwritten);
    }
    match error_number(&answer) {
        Some(number) => Err(MtFault::Refused(peer.asked, number)),
        None => Ok(status),
    }
}

/// Remembers the last request before the close, whose reply is printed. Its contracts state nothing
/// of what is sent and received.
#[derive(Drop)]
struct AskedPeer<'a, R: ClientSystem> {
    socket: SocketPeer<'a, R>,
    asked: TapeRequest,
}

impl<'a, R: ClientSystem> Peer for AskedPeer<'a, R> {
    ghost tells = { λ _ _. ⊥ };

    fn connect(&mut self) -> bool {
        self.socket.connect()
    }

    fn send(&mut self, bytes: &[u8]) -> bool {
        match request_of(bytes) {
            Some(TapeRequest::Close) | None => {}
            Some(asked) => self.asked = asked,
        }
        self.socket.send(bytes)
    }

    fn receive(&mut self, into: &mut [u8]) -> usize {
        self.socket.receive(into)
    }

    fn hang_up(&mut self) {
        self.socket.hang_up();
    }
}

fn error_number(answer: &[u8]) -> Option<u32> {
    let text = answer.strip_prefix(b"E")?;
    let end = find_byte(text, b' ')?;
    str::from_utf8(&text[..end]).ok()?.parse::<u32>().ok()
}
