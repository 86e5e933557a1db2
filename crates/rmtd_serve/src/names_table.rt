//! A type that names the table of a server's seats, for the threads that share them.

use std::marker::Brand;

/// Names the table to which the seats under one lock belong. A proof knows only the type of a
/// locked value, so the type contains the table.
pub(crate) trait NamesTable {
    ghost use Rattle.atomic_table.specs.Seated.{TableId};

    ghost table: { TableId };
}

impl NamesTable for Brand {
    ghost use Rattle.std.specs.Prelude.{[]};

    ghost table = { record { words = 0; slots = 0; views_name = 0; atom = 0; block = 0; offset = 0; slot_names = [] } };
}
