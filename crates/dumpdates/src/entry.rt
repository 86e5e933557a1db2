//! An entry, and the limits of its name, level and date.

ghost use Rattle.std.specs.Prelude.{◌≡◌, ◌↔◌, ◌≤◌, IsSome, IfSome, IsTrue, IsUtf8};
ghost use Rattle.std.proofs.Props.{props};
ghost use Rattle.dumpdates.specs.Entry.{IsName, last_second};

/// The latest date: the last second of the year 9999, in seconds since 1970 began.
pub const LAST_SECOND: u64 = 253_402_300_799;

/// The highest level of a dump.
pub(crate) const LAST_LEVEL: u8 = 9;

/// The largest size of a name in bytes.
const NAME_LIMIT: usize = 255;

/// An entry of dumpdates: the date of a dump of a file system at a level.
#[derive(Clone, Copy, Debug)]
pub struct Entry<'a> {
    /// The name of the file system (see `is_name`).
    pub name: &'a str,
    /// The level of the dump, 0 to 9.
    pub level: u8,
    /// The date of the dump, in seconds since 1970 began, UTC: 0 to `LAST_SECOND`.
    pub date: u64,
    pub ghost name_in: { IsName name.now } by { Prim.hlevel props },
    pub ghost level_in: { level ≤ 9 },
    pub ghost date_in: { date ≤ last_second },
}

impl<'a> Entry<'a> {
    ghost use Rattle.dumpdates.specs.Entry.{IsEntry};
    ghost use Rattle.dumpdates.specs.Stored.{plain_entry};

    /// Returns an entry with the given name, level and date. Returns None if `is_name` rejects the
    /// name, the level is above 9, or the date is above `LAST_SECOND`.
    pub fn new(name: &'a str, level: u8, date: u64) -> Option<Entry<'a>>
        ensures given { IsSome result ↔ IsEntry (record { name = name.now; level = level; date = date }) }
        ensures value { IfSome result (λ e. plain_entry e ≡ record { name = name.now; level = level; date = date }) }
    {
        if !is_name(name.as_bytes()) || level > LAST_LEVEL || date > LAST_SECOND {
            return None;
        }
        Some(Entry { name, level, date })
    }
}

/// Returns whether the bytes can be the name of a file system. A name has 1 to 255 bytes of
/// printable ASCII without a space. Such bytes are UTF-8.
#[tactic(auto, using(crate::proofs::Shapes::name_is_text, std::proofs::lemmas::Grind::elements))]
pub fn is_name(name: &[u8]) -> bool
    ensures name { IsTrue result ↔ IsName name.now }
    ensures text { IsName name.now → IsUtf8 name.now }
{
    !name.is_empty() && name.len() <= NAME_LIMIT && name.iter().all(|b| b.is_ascii_graphic())
}

/// Returns the bytes as a `&str`, or None if `is_name` rejects them.
pub fn as_name(bytes: &[u8]) -> Option<&str>
    ensures given { IsSome result ↔ IsName bytes.now }
    ensures value { IfSome result (λ name. name.now ≡ bytes.now) }
{
    if !is_name(bytes) {
        return None;
    }
    str::from_utf8(bytes).ok()
}
