//! Drives of any kind that serve one stream after the other.
ghost use Rattle.std.specs.Prelude.{◌≡◌, ◌≤◌, IfOk};
ghost use Rattle.drives.specs.contracts.local.LocalHoldsHolds.TheImpl.{ghosts as of_holds};
ghost use Rattle.drives.specs.declared.holds.TheConstants.{DRIVE_LIMIT};
ghost use Rattle.drives.specs.Opening.{kinds};
ghost use Rattle.rmt_server.specs.Stream.{streams, streams_kind};
ghost use Rattle.rmtd_serve.specs.Generic.{IsServedAt};

use crate::at::serve_afresh;
use crate::session_fault::SessionFault;
use drives::{DriveTable, LocalHolds, Stacks};
use rmt_server::Served;
use rmt_wire::Counted;
use std::alloc::{AllocError, Global};
use std::io::{Read, Write};
use std::marker::Model;

/// Drives with their stacks. Contracts describe the stacks. Between two streams no session holds a
/// drive.
#[derive(Drop)]
pub struct TapeServer<S: Stacks + Drop> {
    alloc: Global,
    drives: DriveTable<LocalHolds, S>,
}

impl<S: Stacks + Drop> Model for TapeServer<S> {
    ghost use Rattle.std.specs.Prelude.{◌≤◌, length};
    ghost use Rattle.rmtd_serve.specs.Serving.{AllFree};

    ghost Value = { S };

    ghost coded = { S.code };

    ghost view = { λ s. s.drives.stacks };

    ghost invariant = { λ s. AllFree s.drives.holds × (S.drives s.drives.stacks ≤ length s.drives.holds.numbers) };
}

impl<S: Stacks + Drop> TapeServer<S> {
    /// Makes a server with the given stacks. `drives` is the number of drives, 1 to `DRIVE_LIMIT`.
    /// Fails only if an allocation fails.
    pub fn new(alloc: Global, drives: usize, stacks: S) -> Result<TapeServer<S>, AllocError>
        requires some { 1 ≤ drives }
        requires few { drives ≤ DRIVE_LIMIT }
        requires enough { S.drives stacks ≤ drives }
        ensures { IfOk result (λ s. s ≡ stacks) }
    {
        let holds = LocalHolds::new(alloc, drives)?;
        let drives = DriveTable { holds, stacks };
        Ok(TapeServer { alloc, drives })
    }

    pub(crate) fn stacks(&self) -> &S {
        &self.drives.stacks
    }

    /// Serves one stream in a new session, and releases the drive when the session ends. Returns
    /// how the stream ended.
    ///
    /// Fails with `Stream` if a read or a write failed, with `OutOfMemory` if an allocation failed
    /// before the first request was read, and with `NoSeat` if no session number is left. In the
    /// last two cases nothing is read or written.
    pub fn serve<R: Read, W: Write>(
        &mut self,
        input: &mut Counted<R>,
        output: &mut Counted<W>,
    ) -> Result<Served, SessionFault>
        ensures { IsServedAt (kinds of_holds S.Stacks S.Reel.Reel) (streams_kind R.remaining W.contents) self.old self.new
            (streams input.old output.old) (streams input.new output.new) result }
    {
        let seat = self.drives.holds.seat().ok_or(SessionFault::NoSeat)?;
        let (_, ending) = serve_afresh(self.alloc, &mut self.drives, seat, input, output);
        ending
    }
}
