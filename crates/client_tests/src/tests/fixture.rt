//! What is dumped: a payload, and clients that dump it.

ghost use Rattle.std.specs.Prelude.{◌≡◌, IfSome};

use dump_client::Client;
use dump_files::{PayloadFile, dumper_of, run_of};
use rdump_args::DumpLine;
use std::alloc::Global;
use std::time::Duration;
use tape::MemoryMedium;
use volume_check::Summed;

/// The size of a block in bytes, if three of them are dumped.
pub(super) const TWO_BYTES: u64 = 2;

pub(super) const DEVICE: &[u8] = b"/dev/st0";

/// A payload on a medium in memory.
pub(super) type Payload = PayloadFile<MemoryMedium>;

/// A client that reads its blocks from a payload, and can sum its volumes.
pub(super) type PayloadDumper = Client<Summed<Payload>>;

/// The arguments of a dump of `/usr` at level 1, in blocks of this size.
pub(super) fn line(block: u64) -> DumpLine<'static>
    ensures { result.block ≡ block }
{
    DumpLine {
        to: "nowhere",
        device: "/dev/st0",
        timeout: None,
        fs: "/usr",
        level: 1,
        payload: "payload",
        spool: None,
        allow_empty: false,
        block,
        dumpdates: "dumpdates",
        date: None,
        checkpoint: None,
        catalog: None,
        update: true,
        protect: false,
        retry: None,
        pause: Duration::ZERO,
    }
}

/// The bytes `abcdef`, in blocks of this many bytes.
pub(super) fn payload(alloc: Global, block_bytes: u64) -> Option<Payload>
    ensures { IfSome result (λ p. p.size ≡ block_bytes) }
{
    let bytes = Vec::from_slice(alloc, b"abcdef").ok()?;
    PayloadFile::open(MemoryMedium::from_bytes(bytes), block_bytes).ok()
}

/// Makes a client that dumps these bytes, in blocks of this many bytes.
pub(super) fn client(alloc: Global, block_bytes: u64) -> Option<PayloadDumper> {
    let payload = payload(alloc, block_bytes)?;
    let run = run_of(&line(block_bytes), 951868800, 951782400, &payload).ok()?;
    dumper_of(alloc, run, payload, false).ok()
}
