//! Reads the request that bytes begin with.

ghost use Rattle.std.specs.Prelude.{◌≡◌, ◌≤◌, length, IfOk, IfSome};
ghost use Rattle.rmt_wire.specs.RequestFront as spec;
ghost use Rattle.rmt_wire.specs.Lent.{lent_front};

use crate::fault::WireFault;
use crate::limits::RECORD_LIMIT;
use crate::request::Request;
use crate::request::head::{Head, head_of};

pub fn write_at(bytes: &[u8], count: u32, len: usize) -> Option<(Request<'_>, usize)>
    requires { len ≤ length bytes.now }
    ensures value { lent_front (Ok result) ≡ spec.written_at count len bytes.now }
    ensures within { IfSome result (λ r. r.1 ≤ length bytes.now) }
{
    let data = &bytes[len..];
    let size = count as usize;
    if data.len() < size {
        return None;
    }
    if size > RECORD_LIMIT {
        return Some((Request::WriteDropped { count }, len + size));
    }
    let bytes = &data[..size];
    Some((Request::Write { bytes }, len + size))
}

fn request_at(bytes: &[u8], head: Head) -> Option<(Request<'_>, usize)>
    requires { spec.FitsIn (length bytes.now) head }
    ensures value { lent_front (Ok result) ≡ spec.request_at bytes.now head }
    ensures within { IfSome result (λ r. r.1 ≤ length bytes.now) }
{
    match head {
        Head::Open { device, mode, len } => {
            let device = &bytes[1..device + 1];
            Some((Request::Open { device, mode }, len))
        }
        Head::Close { len } => Some((Request::Close, len)),
        Head::Write { count, len } => write_at(bytes, count, len),
        Head::Read { count, len } => Some((Request::Read { count }, len)),
        Head::Op { op, count, len } => Some((Request::Op { op, count }, len)),
    }
}

#[tactic(auto, unfolding(crate::specs::RequestFront::front_of))]
pub fn request_front(bytes: &[u8]) -> Result<Option<(Request<'_>, usize)>, WireFault>
    ensures value { lent_front result ≡ spec.front_of bytes.now }
    ensures within { IfOk result (λ o. IfSome o (λ r. r.1 ≤ length bytes.now)) }
{
    let Some(head) = head_of(bytes)? else {
        return Ok(None);
    };
    Ok(request_at(bytes, head))
}
