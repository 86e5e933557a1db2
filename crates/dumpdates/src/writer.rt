//! Writes the line of an entry.

ghost use Rattle.std.specs.Prelude.{◌≡◌, [], ◌++◌, IsOk, OnOk};
ghost use Rattle.dumpdates.specs.Stored.{plain_stored, plain_all};
ghost use Rattle.dumpdates.specs.Text as spec;

use crate::ctime::ctime;
use crate::stored::Stored;
use std::alloc::AllocError;

/// The number of bytes to which a name is padded.
const NAME_PLACES: usize = 32;

const SPACES: [u8; NAME_PLACES] = [b' '; NAME_PLACES];

pub(crate) fn push_lines(out: &mut Vec<u8>, entries: &[Stored]) -> Result<(), AllocError>
    ensures written { OnOk result (out.new.items ≡ out.old.items ++ spec.written (plain_all entries.now)) }
    ensures empty { entries.now ≡ [] → IsOk result }
{
    for entry in entries {
        push_line(out, entry)?;
    }
    Ok(())
}

#[tactic(auto, using(std::proofs::Common::append_assoc), unfolding(crate::specs::Text::line_text))]
fn push_line(out: &mut Vec<u8>, entry: &Stored) -> Result<(), AllocError>
    ensures { OnOk result (out.new.items ≡ out.old.items ++ spec.line_text (plain_stored entry.now)) }
{
    push_padded(out, &entry.name)?;
    out.extend_from_slice(&[b' ', b'0' + entry.level, b' '])?;
    out.extend_from_slice(ctime(entry.date).as_bytes())?;
    out.extend_from_slice(b"\n")
}

fn push_padded(out: &mut Vec<u8>, name: &str) -> Result<(), AllocError>
    ensures { OnOk result (out.new.items ≡ out.old.items ++ spec.padded_name name.now) }
{
    out.extend_from_slice(name.as_bytes())?;
    out.extend_from_slice(&SPACES[name.len().min(NAME_PLACES)..])
}
