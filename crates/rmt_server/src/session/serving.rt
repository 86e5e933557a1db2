//! The requests that the open reel serves.
ghost use Rattle.std.specs.Prelude.{◌≡◌, ℕ, ◌<◌, ◌≤◌, ◌&&◌, Some, None, IfOk, length};
ghost use Rattle.rmt_wire.specs.declared.limits.TheConstants.{RECORD_LIMIT};
ghost use Rattle.rmt_wire.specs.Request.PlainRequest.{Write, WriteDropped, Read, Op};
ghost use Rattle.rmt_server.specs.Session.{refusal, read_refusal, write_refusal, op_refusal};
ghost use Rattle.rmt_server.specs.State.{status_at};
ghost use Rattle.rmt_server.specs.Replies.{refusal_in, number_reply, data_reply};
ghost use Rattle.rmt_server.specs.Serving.{ReelServes};

use crate::access::Access;
use crate::refusal::Refusal;
use crate::session::Opened;
use rmt_wire::RECORD_LIMIT;
use rmt_wire::mtio::{MTNOP, MTWEOF};
use tape::{Reel, TapeFault, is_record};

/// Writes one record and returns how many bytes were written: 0 if there is no room.
pub(crate) fn write<R: Reel>(opened: &mut Option<Opened<R>>, bytes: &[u8]) -> Result<u32, Refusal>
    ensures call { ReelServes R.Reel opened.old opened.new (Write bytes.now) (number_reply result) }
    ensures number { IfOk result (λ n. n ≤ RECORD_LIMIT) }
{
    let Some(device) = opened else {
        return Err(Refusal::BadDescriptor);
    };
    let Some(reel) = &mut device.reel else {
        return Err(Refusal::NotConfigured);
    };
    check_write(device.access, bytes)?;
    match reel.write(bytes) {
        Ok(()) => Ok(bytes.len() as u32),
        Err(TapeFault::Full) => Ok(0),
        Err(fault) => Err(Refusal::of_tape(fault)),
    }
}

/// The error for a write of more than `RECORD_LIMIT` bytes, which were dropped.
pub(crate) fn refuse_dropped<R>(opened: &Option<Opened<R>>) -> Refusal
    ensures { (count : ℕ) → refusal (status_at opened.now) (WriteDropped count) ≡ Some result }
{
    match opened {
        None => Refusal::BadDescriptor,
        Some(device) if device.reel.is_none() => Refusal::NotConfigured,
        Some(device) if device.access.writes() => Refusal::Invalid,
        Some(_) => Refusal::BadDescriptor,
    }
}

/// Reads one record, copies at most `count` and at most `RECORD_LIMIT` of its bytes into `into`,
/// and returns how many.
pub(crate) fn read<R: Reel>(
    opened: &mut Option<Opened<R>>,
    into: &mut [u8],
    count: u32,
) -> Result<usize, Refusal>
    requires { length into.old ≡ RECORD_LIMIT }
    ensures call { ReelServes R.Reel opened.old opened.new (Read count) (data_reply result into.new) }
    ensures bound { IfOk result (λ n. n ≤ length into.new) }
{
    let Some(device) = opened else {
        return Err(Refusal::BadDescriptor);
    };
    let Some(reel) = &mut device.reel else {
        return Err(Refusal::NotConfigured);
    };
    check_read(device.access, count)?;
    let most = (count as usize).min(RECORD_LIMIT);
    match reel.read(&mut into[..most]) {
        Ok(n) => Ok(n),
        Err(fault) => Err(Refusal::of_tape(fault)),
    }
}

/// Carries out an operation of mtio except 6 on the open reel, and returns `count`.
pub(crate) fn operate<R: Reel>(
    opened: &mut Option<Opened<R>>,
    op: u32,
    count: u32,
) -> Result<u32, Refusal>
    ensures call { ReelServes R.Reel opened.old opened.new (Op op count) (number_reply result) }
    ensures number { IfOk result (λ n. n ≡ count) }
{
    let Some(device) = opened else {
        return Err(Refusal::BadDescriptor);
    };
    let Some(reel) = &mut device.reel else {
        return Err(Refusal::NotConfigured);
    };
    check_op(device.access, op)?;
    match reel.op(op, count) {
        Ok(()) => Ok(count),
        Err(fault) => Err(Refusal::of_tape(fault)),
    }
}

fn check_write(access: Access, bytes: &[u8]) -> Result<(), Refusal>
    ensures { write_refusal access (length bytes.now) ≡ refusal_in result }
{
    if !access.writes() {
        return Err(Refusal::BadDescriptor);
    }
    if !is_record(bytes) {
        return Err(Refusal::Invalid);
    }
    Ok(())
}

fn check_read(access: Access, count: u32) -> Result<(), Refusal>
    ensures { read_refusal access count ≡ refusal_in result }
{
    if !access.reads() {
        return Err(Refusal::BadDescriptor);
    }
    if count == 0 {
        return Err(Refusal::Invalid);
    }
    Ok(())
}

fn check_op(access: Access, op: u32) -> Result<(), Refusal>
    ensures { op_refusal access op ≡ refusal_in result }
{
    if op == MTWEOF && !access.writes() {
        return Err(Refusal::Permission);
    }
    if op > MTNOP {
        return Err(Refusal::Invalid);
    }
    Ok(())
}
