//! Serves one stream with one drive in memory, as `rmtd --stdio` does.
ghost use Rattle.rmt_server.specs.Stream.{streams, streams_kind};
ghost use Rattle.rmtd_serve.specs.Stdio.{IsServedAlone, IsStdio};

use crate::memory_server::MemoryServer;
use crate::session_fault::SessionFault;
use crate::status::ExitStatus;
use rmt_server::Served;
use rmt_wire::Counted;
use std::alloc::Global;
use std::io::{Read, Write};

/// Serves the requests of `input` and writes the replies to `output`. It has one drive `/dev/st0`,
/// with one empty reel of `capacity` bytes in memory.
///
/// Returns the number of the exit status of `rmtd --stdio`; `ExitStatus::of` lists them. If the
/// server could not start, neither stream was touched.
pub fn run_stdio<R: Read, W: Write>(
    alloc: Global,
    input: &mut Counted<R>,
    output: &mut Counted<W>,
    capacity: u64,
) -> u8
    ensures { IsStdio (streams_kind R.remaining W.contents) capacity (streams input.old output.old) (streams input.new output.new) result }
{
    ExitStatus::of(serve_alone(alloc, input, output, capacity)).code()
}

/// Like `run_stdio`, but returns how the stream ended.
pub(crate) fn serve_alone<R: Read, W: Write>(
    alloc: Global,
    input: &mut Counted<R>,
    output: &mut Counted<W>,
    capacity: u64,
) -> Result<Served, SessionFault>
    ensures { IsServedAlone (streams_kind R.remaining W.contents) capacity
        (streams input.old output.old) (streams input.new output.new) result }
{
    let mut server = MemoryServer::new(alloc, capacity)?;
    server.serve(input, output)
}
