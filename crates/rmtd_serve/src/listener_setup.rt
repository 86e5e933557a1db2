//! The setup of a listener that serves connections in parallel.
ghost use Rattle.std.specs.Prelude.{◌≡◌, ◌≤◌, None, All, length};
ghost use Rattle.std.proofs.Props.{props};
ghost use Rattle.drives.specs.Holding.{HoldsJust};
ghost use Rattle.hold_table.specs.Seats.{IsSeatAt};
ghost use Rattle.hold_table.specs.declared.table.TheConstants.{SEAT_LIMIT};

use crate::error_log::ErrorLog;
use crate::line_start::LineStart;
use hold_table::{HoldSeat, HoldTable};
use reel_files::{FolderStacks, FolderSystem};
use std::time::Duration;

/// The drives in folders, the table of their holders, and the limits of a listener.
#[derive(Drop)]
pub struct ListenerSetup<R: FolderSystem + Eprint> {
    /// How many connections are served, at most.
    pub left: u64,
    /// How long one read or one write of a connection may make no progress before the server ends
    /// the connection, if there is a limit.
    pub idle: Option<Duration>,
    /// The table of who holds which drive.
    pub table: HoldTable,
    /// The table's seats. None holds a drive.
    pub seats: Vec<HoldSeat>,
    /// The stacks of each seat, with the drives of the table.
    pub stacks: Vec<FolderStacks<R, ErrorLog<R>>>,
    /// How log lines begin.
    pub start: LineStart,
    ghost seated: { (length seats.items ≡ SEAT_LIMIT) × All (λ s. IsSeatAt table s × HoldsJust s.view None) seats.items } by { Prim.hlevel props },
    ghost stacked: { (length stacks.items ≡ SEAT_LIMIT) × All (λ s. length s.rows ≤ table.words) stacks.items } by { Prim.hlevel props },
}
