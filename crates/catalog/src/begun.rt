//! The line with which a dump begins.

ghost use Rattle.std.specs.Prelude.{◌≡◌};
ghost use Rattle.catalog.specs.DumpLines.{plain_begun};

use dump_run::DumpId;
use std::marker::Model;

/// A dump that begins, and the length of its payload. It allocates nothing.
#[derive(Drop)]
pub struct BegunLine {
    id: DumpId,
    bytes: u64,
}

impl Model for BegunLine {
    ghost use Rattle.catalog.specs.DumpLines.{PlainBegun, IsBegun, plain_begun};

    ghost Value = { PlainBegun };

    ghost view = { λ b. plain_begun b.id b.bytes };

    ghost invariant = { λ b. IsBegun (plain_begun b.id b.bytes) };
}

impl BegunLine {
    /// Makes the line of a dump that begins, with a payload of so many bytes.
    pub fn new(id: DumpId, bytes: u64) -> BegunLine
        ensures { result ≡ plain_begun id bytes }
    {
        BegunLine { id, bytes }
    }

    /// Returns the dump.
    pub fn id(&self) -> &DumpId
        // The types allow no other body, so no wrong body is tried.
        ensures { result.now ≡ self.now.id }
    {
        &self.id
    }

    /// Returns the length of the payload in bytes.
    pub fn bytes(&self) -> u64
        ensures { result ≡ self.now.bytes }
    {
        self.bytes
    }
}
