//! Reads the line that bytes begin with.

ghost use Rattle.std.specs.Prelude.{◌≡◌, ◌<◌, length, IfOk, IfSome};
ghost use Rattle.rmt_wire.specs.RequestFront as spec;

use crate::fault::WireFault;
use crate::limits::LINE_LIMIT;

/// Returns how many bytes come before the line feed, or None if it has not come. Fails after
/// `LINE_LIMIT` bytes.
pub fn line_front(bytes: &[u8]) -> Result<Option<usize>, WireFault>
    ensures value { result ≡ spec.line_front bytes.now }
    ensures within { IfOk result (λ o. IfSome o (λ n. n < length bytes.now)) }
{
    for (len, byte) in bytes.iter().enumerate() {
        if *byte == b'\n' {
            return Ok(Some(len));
        }
        if len == LINE_LIMIT {
            return Err(WireFault::LineTooLong);
        }
    }
    Ok(None)
}
