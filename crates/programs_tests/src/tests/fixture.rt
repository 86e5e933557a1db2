//! Clients that dump three blocks of two bytes, and the drive that they dump to.

ghost use Rattle.std.specs.Prelude.{◌≡◌, length};

use dump_client::{Client, ListBlocks, Run};
use std::alloc::Global;
use volume_check::Summed;

/// The drive's device.
pub(super) const DEVICE: &[u8] = b"/dev/st0";

/// A client of blocks in memory.
pub(super) type Dumper = Client<Summed<ListBlocks>>;

/// Makes a client that dumps `abcdef` as `/usr` at level 1, in blocks of two bytes.
pub(super) fn client(alloc: Global) -> Option<Dumper> {
    client_of(alloc, Vec::from_slice(alloc, b"abcdef").ok()?)
}

/// Makes a client that dumps these bytes.
fn client_of(alloc: Global, payload: Vec<u8>) -> Option<Dumper>
    requires { length payload.items ≡ 6 }
{
    let run = Run::new(DEVICE, "/usr", 1, 951868800, 951782400, 2, 3).ok()?;
    let source = Summed::new(ListBlocks::new(payload, 2, 3), false);
    Client::new(alloc, run, source).ok()
}
