//! The length of a record.

ghost use Rattle.std.specs.Prelude.{◌↔◌, IsTrue};
ghost use Rattle.tape.specs.Tape.{IsRecord};

use rmt_wire::RECORD_LIMIT;

/// Returns whether the given bytes can be a record: 1 to `RECORD_LIMIT` (262,144) bytes.
pub fn is_record(bytes: &[u8]) -> bool
    ensures answer { IsTrue result ↔ IsRecord bytes.now }
{
    !bytes.is_empty() && bytes.len() <= RECORD_LIMIT
}
