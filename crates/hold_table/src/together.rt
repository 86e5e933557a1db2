//! Calls with several seats at once, which show that the table keeps the seats apart.
ghost use Rattle.std.specs.Prelude.{◌≡◌, ◌≢◌, ℕ, ◌<◌, ◌≤◌, ◌↔◌, ◌∷◌, All, IsTrue, false, slice_index, slice_index_or};
ghost use Rattle.drives.specs.Holding.{has};
ghost use Rattle.hold_table.specs.Closing.{IsClosing};
ghost use Rattle.hold_table.specs.Keeping.{group_views};
ghost use Rattle.hold_table.specs.Seats.{views_of, IsSeatAt, FoundHolder, lone};
ghost use Rattle.hold_table.specs.declared.table.TheConstants.{SEAT_LIMIT};

use crate::rule::{Compares, Dismiss, Enters, Gather, Invite, SeatGroup};
use crate::seat::HoldSeat;
use crate::table::HoldTable;
use atomic_table::{Closed, Seat};
use drives::DRIVE_LIMIT;
use std::alloc::Global;

impl HoldTable {
    /// Shows that two seats of this table have different numbers and hold no drive in common,
    /// whatever other threads do. Returns both seats unchanged, with the number in the word of
    /// drive `drive`, which is that of one of the two if and only if this seat holds the drive.
    ///
    /// Suppose that the last step of one of them found the number of the other. Then that other
    /// seat holds the drive of that step, or has made two steps or more. Therefore a take that is
    /// the first step at a table never returns `Busy`.
    ///
    /// It makes three atomic steps, which change no word and which the seats do not count.
    pub fn apart(&self, one: HoldSeat, other: HoldSeat, drive: usize) -> (HoldSeat, HoldSeat, u64)
        requires one { IsSeatAt self.now one }
        requires other { IsSeatAt self.now other }
        requires drive { drive < self.now.words }
        ensures same { (result.0 ≡ one) × (result.1 ≡ lone other) }
        ensures numbers { one.view.number ≢ other.view.number }
        ensures drives { (d : ℕ) → IsTrue (has one.view d) → IsTrue (has other.view d) → ⊥ }
        ensures known { result.2 ≤ SEAT_LIMIT }
        ensures holder { (result.2 ≡ one.view.number ↔ IsTrue (has one.view drive))
            × (result.2 ≡ other.view.number ↔ IsTrue (has other.view drive)) }
        ensures found { FoundHolder one.view other.view other.made × FoundHolder other.view one.view one.made }
    {
        let HoldSeat { mut seat, number } = one;
        let HoldSeat {
            seat: second,
            number: other_number,
        } = other;
        self.table.shared.join_seat::<Invite>(&mut seat, second);
        let found = self.table.shared.load::<Compares>(&mut seat, drive);
        let second = self.table.shared.split_seat::<Dismiss>(&mut seat);
        let one = HoldSeat { seat, number };
        let other = HoldSeat {
            seat: second,
            number: other_number,
        };
        (one, other, found)
    }

    fn add_seat(&self, company: &mut Seat<(), SeatGroup>, next: HoldSeat)
        requires company { company.old.table_id ≡ self.now }
        requires next { IsSeatAt self.now next }
        ensures same { company.new.table_id ≡ self.now }
        ensures more { group_views company.new.me.0 ≡ next.view ∷ group_views company.old.me.0 }
    {
        let HoldSeat { seat, number: _ } = next;
        self.table.shared.join_seat::<Gather>(company, seat);
    }

    fn gathered(&self, mut seats: Vec<HoldSeat>) -> Seat<(), SeatGroup>
        requires seats { All (λ s. IsSeatAt self.now s) seats.items }
        ensures same { result.table_id ≡ self.now }
        ensures gathered { group_views result.me.0 ≡ views_of seats.items }
    {
        let (_, mut company) = self.table.shared.load_new_seat::<Enters>(0);
        while let Some(next) = seats.pop() {
            self.add_seat(&mut company, next);
        }
        company
    }

    /// Ends the table and returns its words. All seats must be of this table. A word is the number
    /// of a passed seat if and only if this seat holds the drive. No clause says that a seat that
    /// was not passed holds the drive whose word is its number. Allocates nothing.
    pub fn close(self, seats: Vec<HoldSeat>) -> [u64; DRIVE_LIMIT]
        requires seats { All (λ s. IsSeatAt self s) seats.items }
        ensures { IsClosing result seats.items }
    {
        let company = self.gathered(seats);
        let HoldTable { table } = self;
        let closed = table.close_with(company);
        let words = words_of(&closed);
        closed.free();
        words
    }
}

// The words of a closed table, and 0 for each drive that it does not have.
fn words_of(closed: &Closed<(), Global>) -> [u64; DRIVE_LIMIT]
    requires full { (d : ℕ) → 0 ≤ d → d < closed.now.words.len → IsTrue (slice_index_or closed.now.words.filled d false) }
    requires few { closed.now.words.len ≤ DRIVE_LIMIT }
    ensures { (d : ℕ) → slice_index result d ≡ slice_index closed.now.words.items d }
{
    let mut words = [0; DRIVE_LIMIT];
    let mut drive = 0;
    while drive < closed.words.len() {
        words[drive] = closed.word(drive);
        drive += 1;
    }
    words
}
