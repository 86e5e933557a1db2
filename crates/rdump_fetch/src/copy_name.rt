//! The name of a copy.
ghost use Rattle.std.specs.Prelude.{◌≡◌, ◌++◌, OnOk, flat_map};
ghost use Rattle.rdump_fetch.specs.Name as spec;
ghost use Rattle.rdump_fetch.specs.Name.{copy_name};

use dump_run::VolumeLabel;
use itoa::Buffer;
use std::alloc::AllocError;

/// Appends the name of the record file of a volume: the name of the dump, its level, its date and
/// the number of the volume, with dots between them. In the name of the dump, `/` is written `%2F`,
/// `%` is written `%25`, and a leading dot `%2E`.
///
/// If an allocation fails, part of the name may have been appended.
pub fn push_copy_name(text: &mut Vec<u8>, label: &VolumeLabel) -> Result<(), AllocError>
    ensures { OnOk result (text.new.items ≡ text.old.items ++ copy_name label.now) }
{
    push_name(text, label.name().as_bytes())?;
    push_number(text, u64::from(label.level()))?;
    push_number(text, label.date())?;
    push_number(text, u64::from(label.volume()))
}

fn push_name(text: &mut Vec<u8>, name: &[u8]) -> Result<(), AllocError>
    ensures { OnOk result (text.new.items ≡ text.old.items ++ spec.escaped_name name.now) }
{
    let Some((first, rest)) = name.split_first() else {
        return Ok(());
    };
    if *first == b'.' {
        text.extend_from_slice(b"%2E")?;
    } else {
        push_byte(text, *first)?;
    }
    push_bytes(text, rest)
}

fn push_bytes(text: &mut Vec<u8>, bytes: &[u8]) -> Result<(), AllocError>
    ensures { OnOk result (text.new.items ≡ text.old.items ++ flat_map spec.escaped bytes.now) }
{
    for byte in bytes {
        push_byte(text, *byte)?;
    }
    Ok(())
}

fn push_byte(text: &mut Vec<u8>, byte: u8) -> Result<(), AllocError>
    ensures { OnOk result (text.new.items ≡ text.old.items ++ spec.escaped byte) }
{
    match byte {
        b'/' => text.extend_from_slice(b"%2F"),
        b'%' => text.extend_from_slice(b"%25"),
        _ => text.extend_from_slice(&[byte]),
    }
}

fn push_number(text: &mut Vec<u8>, number: u64) -> Result<(), AllocError>
    ensures { OnOk result (text.new.items ≡ text.old.items ++ spec.numbered number) }
{
    let mut digits = Buffer::new();
    text.extend_from_slice(b".")?;
    text.extend_from_slice(digits.format(number).as_bytes())
}
