//! The dump that is wanted.
ghost use Rattle.std.specs.Prelude.{◌↔◌, IsTrue};
ghost use Rattle.dump_run.specs.Label.{id_of};
ghost use Rattle.restore.specs.Restored.{Fits};

use catalog::Catalog;
use dump_run::VolumeLabel;
use std::marker::Model;

/// The dump that is wanted, as far as it is given, and what is known of its payload.
#[derive(Drop)]
pub struct Wanted<'a> {
    /// The name of the file system, or None for any.
    pub name: Option<&'a str>,
    /// The level, or None for any.
    pub level: Option<u8>,
    /// The date of the dump in seconds since the beginning of 1970 (UTC), or None for any.
    pub date: Option<u64>,
    /// The length of the payload in bytes.
    pub length: u64,
    /// How many volumes the dump has, or None if this is not known.
    pub volumes: Option<u32>,
    /// The lines of a catalog, or None to have none. With a catalog a volume is taken only if its
    /// line is in force and has the SHA-256 of the volume's reel.
    pub lines: Option<&'a Catalog>,
}

impl<'a> Model for Wanted<'a> {
    ghost use Rattle.restore.specs.Restored.{PlainWanted};
    ghost use Rattle.std.specs.Option.{option_copied};

    ghost Value = { PlainWanted };

    ghost view = { λ w. record { name = option_copied w.name; level = w.level; date = w.date; length = w.length; volumes = w.volumes; lines = option_copied w.lines } };
}

impl Wanted<'_> {
    /// Whether a volume with this label is of a dump that is wanted: the label has the name, the
    /// level and the date that are given.
    pub fn fits(&self, label: &VolumeLabel) -> bool
        ensures { IsTrue result ↔ Fits self.now (id_of label.now) }
    {
        let is_named = match self.name {
            Some(name) => label.name() == name,
            None => true,
        };
        let is_of_level = match self.level {
            Some(level) => label.level() == level,
            None => true,
        };
        let is_dated = match self.date {
            Some(date) => label.date() == date,
            None => true,
        };
        is_named && is_of_level && is_dated
    }
}
