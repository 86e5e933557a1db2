//! The contract of a hold record.

ghost use Rattle.std.specs.Prelude.{◌≡◌, ◌≢◌, ℕ, ◌<◌, ◌≤◌, ◌↔◌, IsTrue};
ghost use Rattle.drives.specs.declared.view.View.{View};
ghost use Rattle.drives.specs.Holding.{has, taken, given, looked, found_by, TakeAnswers, holder_after_take, holder_after_give};

use crate::Taken;

/// The greatest number of drives.
pub const DRIVE_LIMIT: usize = 64;

/// Records which seat holds which drive. Drives are numbered from 0. At most one seat holds a
/// drive.
///
/// Contracts see a seat as its `View`. Each call is one step of the seat and does not change what
/// other seats hold.
///
/// Clauses about holders apply only if the implementation specifies them.
pub trait Holds {
    /// A seat at these drives.
    type Seat: Drop;

    /// These holds created the seat, and both agree on the drives that it holds.
    ghost belongs: { Self → Self.Seat → Type 0 };

    ghost drives: { Self → ℕ };

    /// The last seat number that was assigned, counted from 1.
    ghost seated: { Self → ℕ };

    /// The view of the seat.
    ghost shows: { Self.Seat → View };

    /// The seat with this number, or no seat if it is 0, holds the drive. If the holders are
    /// unspecified, this is true of no number.
    ghost tells: { Self → ℕ → ℕ → Type 0 };

    /// Takes the given drive for the given seat, if no seat holds the drive. Returns `Held`, or
    /// `Busy` with the number of the seat that holds the drive. The number was assigned to a seat.
    fn take(&mut self, seat: &mut Self::Seat, drive: usize) -> Taken
        requires seat { belongs self.old seat.old }
        requires drive { drive < drives self.old }
        ensures step { shows seat.new ≡ taken (shows seat.old) drive (found_by result) }
        ensures answer { TakeAnswers result (shows seat.old) (shows seat.new) drive }
        ensures known { found_by result ≤ seated self.old }
        ensures found { (n : ℕ) → tells self.old drive n → found_by result ≡ n }
        ensures told { (d n : ℕ) → tells self.old d n → tells self.new d (holder_after_take (shows seat.old).number drive d n) }
        ensures own { belongs self.new seat.new }
        ensures others { (s : Self.Seat) → (shows s).number ≢ (shows seat.old).number → belongs self.old s → belongs self.new s }
        ensures same_drives { drives self.new ≡ drives self.old }
        ensures same_seats { seated self.new ≡ seated self.old };

    /// Gives back the given drive, which the given seat holds.
    fn give(&mut self, seat: &mut Self::Seat, drive: usize)
        requires seat { belongs self.old seat.old }
        requires drive { drive < drives self.old }
        requires held { IsTrue (has (shows seat.old) drive) }
        ensures step { shows seat.new ≡ given (shows seat.old) drive }
        ensures told { (d n : ℕ) → tells self.old d n → tells self.new d (holder_after_give drive d n) }
        ensures own { belongs self.new seat.new }
        ensures others { (s : Self.Seat) → (shows s).number ≢ (shows seat.old).number → belongs self.old s → belongs self.new s }
        ensures same_drives { drives self.new ≡ drives self.old }
        ensures same_seats { seated self.new ≡ seated self.old };

    /// Returns the number of the seat that holds the given drive, or 0 if no seat does. Any other
    /// number returned was assigned to a seat.
    fn holder(&self, seat: &mut Self::Seat, drive: usize) -> u64
        requires seat { belongs self.now seat.old }
        requires drive { drive < drives self.now }
        ensures step { shows seat.new ≡ looked (shows seat.old) drive result }
        ensures known { result ≤ seated self.now }
        ensures mine { result ≡ (shows seat.old).number ↔ IsTrue (has (shows seat.old) drive) }
        ensures found { (n : ℕ) → tells self.now drive n → result ≡ n }
        ensures own { belongs self.now seat.new };

    ghost numbered: { (h : Self) (s : Self.Seat) → belongs h s → (1 ≤ (shows s).number) × ((shows s).number ≤ seated h) };

    ghost agrees: { (h : Self) (s : Self.Seat) (d n : ℕ) → belongs h s → tells h d n → n ≡ (shows s).number ↔ IsTrue (has (shows s) d) };
}
