//! A drive in memory that serves one stream after the other.
ghost use Rattle.std.specs.Prelude.{◌≡◌, IfOk, length};
ghost use Rattle.drives.specs.ListLibrary.{IsLibrary, StacksCanFail};
ghost use Rattle.rmt_server.specs.Stream.{streams, streams_kind};
ghost use Rattle.rmtd_serve.specs.Stdio.{blank_session_view};
ghost use Rattle.rmtd_serve.specs.Serving.{IsServedNext};

use crate::logged_stacks::LoggedStacks;
use crate::session_fault::SessionFault;
use crate::tape_server::TapeServer;
use drives::ListStacks;
use reel_files::{Log, NoLog};
use rmt_server::Served;
use rmt_wire::Counted;
use std::alloc::{AllocError, Global};
use std::io::{Read, Write};
use std::marker::Model;

const DEVICE: &[u8] = b"/dev/st0";

const REEL: &[u8] = b"reel";

/// A drive `/dev/st0` with a reel in memory, which serves one stream after the other.
///
/// Contracts describe its reels: those on the stack and those in the bin. Between two streams no
/// session holds the drive. Its log has a line for each refused open, but only the first of equal
/// ones in a row.
#[derive(Drop)]
pub struct MemoryServer<'l, L: Log> {
    server: TapeServer<LoggedStacks<'l, ListStacks, L>>,
}

impl<'l, L: Log> Model for MemoryServer<'l, L> {
    ghost use Rattle.drives.specs.TapeLibrary.{TapeLibrary};
    ghost use Rattle.drives.specs.ListLibrary.{library_of};
    ghost use Rattle.rmtd_serve.specs.Serving.{IsAtRest};

    ghost Value = { TapeLibrary };

    ghost view = { λ s. library_of s.server };

    ghost invariant = { λ s. IsAtRest s.server };
}

impl MemoryServer<'static, NoLog> {
    /// Makes a server without a log. It has one drive, an empty bin, and an empty reel named `reel`
    /// with room for `capacity` bytes. Fails only if an allocation fails.
    pub fn new(alloc: Global, capacity: u64) -> Result<MemoryServer<'static, NoLog>, AllocError>
        ensures { IfOk result (λ s. s ≡ (blank_session_view capacity).library) }
    {
        MemoryServer::with_log(alloc, capacity, &NoLog)
    }
}

impl<'l, L: Log> MemoryServer<'l, L> {
    /// Like `new`, but refused opens are logged in `log`.
    pub fn with_log(
        alloc: Global,
        capacity: u64,
        log: &'l L,
    ) -> Result<MemoryServer<'l, L>, AllocError>
        ensures { IfOk result (λ s. s ≡ (blank_session_view capacity).library) }
    {
        let stacks = one_reel(alloc, capacity)?;
        let stacks = LoggedStacks::new(stacks, log);
        let server = TapeServer::new(alloc, 1, stacks)?;
        Ok(MemoryServer { server })
    }

    /// Serves one stream in a new session, with the result and the errors of `TapeServer::serve`.
    pub fn serve<R: Read, W: Write>(
        &mut self,
        input: &mut Counted<R>,
        output: &mut Counted<W>,
    ) -> Result<Served, SessionFault>
        ensures { IsServedNext (streams_kind R.remaining W.contents) self.old self.new
            (streams input.old output.old) (streams input.new output.new) result }
    {
        self.server.stacks().begin_session();
        self.server.serve(input, output)
    }
}

/// Fails only if an allocation fails, since no other drive or reel has these names.
fn one_reel(alloc: Global, capacity: u64) -> Result<ListStacks, AllocError>
    ensures library { IfOk result (λ stacks. IsLibrary stacks (blank_session_view capacity).library) }
    ensures quiet { IfOk result (λ stacks. StacksCanFail stacks → ⊥) }
    ensures drives { IfOk result (λ stacks. length stacks.library.drives ≡ 1) }
{
    let mut stacks = ListStacks::new(alloc);
    let drive = stacks.add_drive(DEVICE).map_err(|_| AllocError)?;
    stacks
        .add_reel(drive, REEL, capacity)
        .map_err(|_| AllocError)?;
    Ok(stacks)
}
