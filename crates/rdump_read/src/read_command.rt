//! `rdump read`.
ghost use Rattle.rdump_args.specs.Rdump.{IsReadLine};

use crate::fault::{ReelFault, at};
use crate::front::Foreign;
use crate::out_file::OutFile;
use crate::read_sink::{FirstRecord, ReadSink};
use console::ExitStatus;
use rdump_args::ReadLine;
use rdump_net::{AfterVolume, ReadFault, SocketPeer, copy_volume};
use rdump_system::ClientSystem;
use remote_tape::TapeRequest;
use std::io::Write;

/// Reads the first volume of a drive back into a file, as `rdump read` does, and prints the
/// volume's label. `terminal` is standard error, if that is a terminal: it shows the progress.
///
/// The file is opened first. At the first reply to a read that is no refusal, a regular file is
/// emptied, also if the reel gives no record. If no such reply comes, or the label cannot be
/// printed, the file keeps its contents, and a file that is created here is removed. The records
/// after the first one are appended. Whether a mark ends the volume is not found out. The reel
/// stays on its stack.
///
/// Standard error reports how many blocks were read, and whether the reel does not begin with a
/// label of `rdump`. At the end, a regular file or a block device is synced, and so is the folder
/// of a file that is created here.
///
/// Returns `Success` if everything was read and synced. Returns `StartupError` if the file could
/// not be opened, and `Abnormal` otherwise.
pub fn run_read<R: ClientSystem, T: Write + Drop>(
    rt: &R,
    line: ReadLine<'_>,
    terminal: Option<T>,
) -> ExitStatus
    requires { IsReadLine line }
{
    let (to, device) = (line.to, line.device);
    let mut peer = SocketPeer::new(rt, to, line.timeout);
    match read(rt, &line, &mut peer, terminal) {
        Ok(()) => ExitStatus::Success,
        Err(fault) => fault.report(rt, to, device, peer.failure()),
    }
}

fn read<'a, R: ClientSystem, T: Write + Drop>(
    rt: &'a R,
    line: &ReadLine<'a>,
    peer: &mut SocketPeer<'_, R>,
    terminal: Option<T>,
) -> Result<(), ReelFault<'a>>
    requires { IsReadLine line.now }
{
    let file = at(line.out, OutFile::open(rt, rt.alloc(), line.out))?;
    let mut sink = ReadSink::new(rt, line.out, file, terminal);
    let result = read_back(rt, line, peer, &mut sink);
    sink.end();
    result
}

fn read_back<'a, R: ClientSystem, T: Write + Drop>(
    rt: &R,
    line: &ReadLine<'_>,
    peer: &mut SocketPeer<'_, R>,
    sink: &mut ReadSink<'a, R, T>,
) -> Result<(), ReelFault<'a>>
    requires { IsReadLine line.now }
{
    let device = line.device.as_bytes();
    let read = copy_volume(rt.alloc(), peer, device, AfterVolume::Stay, sink);
    sink.clear();
    if sink.first().is_none() && was_answered(read) {
        sink.empty();
    }
    print_records(rt, line, read, sink);
    sink.finish(read)
}

/// Whether a read was answered, if no record came of it.
fn was_answered(read: Result<(), ReadFault>) -> bool {
    match read {
        Ok(()) => true,
        Err(ReadFault::Tape(fault)) => fault.request == TapeRequest::Close,
        Err(_) => false,
    }
}

fn print_records<R: ClientSystem, T: Write + Drop>(
    rt: &R,
    line: &ReadLine<'_>,
    read: Result<(), ReadFault>,
    sink: &ReadSink<'_, R, T>,
)
    requires { IsReadLine line.now }
{
    let (to, device, sizes) = (line.to, line.device, sink.sizes());
    if sink.first().is_some() {
        let _ = eprintln!(rt; "{sizes}");
    }
    let foreign = match sink.first() {
        Some(FirstRecord::Other) => Foreign::record(to, device),
        None if read.is_ok() => Foreign::look(rt, to, device, line.timeout),
        _ => return,
    };
    let _ = eprintln!(rt; "rdump: {foreign}");
}
