//! Closes the table of a server that served connections in parallel.
ghost use Rattle.std.specs.Prelude.{◌≡◌, ◌≢◌, ℕ, None, All, length, slice_index};
ghost use Rattle.drives.specs.Holding.{HoldsJust};
ghost use Rattle.hold_table.specs.Closing.{IsClosing};
ghost use Rattle.hold_table.specs.Seats.{IsSeatAt};

use drives::DRIVE_LIMIT;
use hold_table::{HoldSeat, HoldTable, SEAT_LIMIT};

/// Closes the table of a server whose last connection has ended, and returns its words as
/// `HoldTable::close` does. All seats must be of this table. If no passed seat holds a drive, no
/// word is the number of a passed seat. If these are all 32 seats, each word is then 0.
pub fn close_table(table: HoldTable, seats: Vec<HoldSeat>) -> [u64; DRIVE_LIMIT]
    requires seats { All (λ s. IsSeatAt table s) seats.items }
    ensures words { IsClosing result seats.items }
    ensures free { length seats.items ≡ SEAT_LIMIT → All (λ s. HoldsJust s.view None) seats.items
        → (drive : ℕ) → slice_index result drive ≡ 0 }
    ensures back { All (λ s. HoldsJust s.view None) seats.items
        → All (λ s. (drive : ℕ) → slice_index result drive ≢ s.view.number) seats.items }
{
    let words = table.close(seats);
    words
}
