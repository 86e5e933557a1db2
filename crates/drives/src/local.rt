//! The hold record of one thread.

ghost use Rattle.std.specs.Prelude.{◌≡◌, ◌<◌, ◌≤◌, ◌+◌, None, IfOk, IfSome, replicate, length};
ghost use Rattle.drives.specs.declared.view.View.{View};
ghost use Rattle.drives.specs.Holding.{moved, last_step, HoldsJust};
ghost use Rattle.drives.specs.Local.{holders, IsSeatGiven, IsSeatOf, IsHeldBy};

use crate::{DRIVE_LIMIT, Holds, LastStep, StepKind, Taken, View};
use std::alloc::{AllocError, Global};
use std::marker::Model;

/// A seat at the drives of one thread, made by `LocalHolds::seat`.
#[derive(Drop)]
pub struct LocalSeat {
    view: View,
}

impl Model for LocalSeat {
    ghost use Rattle.drives.specs.declared.view.View.{View};

    ghost Value = { View };

    ghost view = { λ s. s.view };
}

impl LocalSeat {
    fn count(&mut self, kind: StepKind, drive: usize, found: u64)
        ensures { self.new ≡ moved self.old self.old.held (last_step kind drive found) }
    {
        self.view.steps = self.view.steps.saturating_add(1);
        self.view.last = Some(LastStep { kind, drive, found });
    }
}

/// The drives of one thread, from 1 to `DRIVE_LIMIT`.
#[derive(Drop)]
pub struct LocalHolds {
    numbers: Vec<u64>,
    last: u64,
}

impl Model for LocalHolds {
    ghost use Rattle.drives.specs.Local.{Holders, holders, AreHolders};

    ghost Value = { Holders };

    ghost view = { λ h. holders h.numbers.items h.last };

    ghost invariant = { λ h. AreHolders h.numbers.items h.last };
}

impl LocalHolds {
    /// Returns a hold record of 1 to `DRIVE_LIMIT` drives, all free. Fails only if an allocation
    /// fails.
    pub fn new(alloc: Global, drives: usize) -> Result<LocalHolds, AllocError>
        requires some { 1 ≤ drives }
        requires few { drives ≤ DRIVE_LIMIT }
        ensures { IfOk result (λ all. all ≡ holders (replicate drives 0) 0) }
    {
        let numbers = Vec::from_elem(alloc, 0u64, drives)?;
        Ok(LocalHolds { numbers, last: 0 })
    }

    /// Returns a new seat that holds no drive. Seats are numbered 1, 2, 3 and so on. Returns `None`
    /// once `u64::MAX` was assigned. It allocates nothing.
    pub fn seat(&mut self) -> Option<LocalSeat>
        ensures next { IsSeatGiven self.old result self.new }
        ensures own { IfSome result (λ seat. IsSeatOf self.new seat) }
        ensures idle { IfSome result (λ seat. HoldsJust seat None) }
        ensures others { (v : View) → IsSeatOf self.old v → IsSeatOf self.new v }
    {
        if self.last == u64::MAX {
            return None;
        }
        self.last += 1;
        let view = View {
            number: self.last,
            held: [false; DRIVE_LIMIT],
            steps: 0,
            last: None,
        };
        Some(LocalSeat { view })
    }

    /// Returns the number of the seat that holds the given drive, or 0 if no seat does. The drive
    /// must exist. This is not a step of a seat.
    pub fn number_at(&self, drive: usize) -> u64
        requires { drive < length self.now.numbers }
        ensures { IsHeldBy self.now drive result }
    {
        let numbers = &self.numbers;
        numbers[drive]
    }
}

impl Holds for LocalHolds {
    ghost use Rattle.std.specs.Prelude.{length};
    ghost use Rattle.drives.specs.Local.{IsSeatOf, IsHeldBy};
    ghost use Rattle.std.proofs.Common.{arith};
    ghost use Rattle.std.proofs.lemmas.Bool.Decides.{nat_tests};

    type Seat = LocalSeat;

    ghost belongs = { IsSeatOf };

    ghost drives = { λ h. length h.numbers };

    ghost seated = { λ h. h.last };

    ghost shows = { λ s. s };

    ghost tells = { IsHeldBy };

    fn take(&mut self, seat: &mut LocalSeat, drive: usize) -> Taken {
        let found = self.numbers[drive];
        seat.count(StepKind::Take, drive, found);
        if found == 0 {
            self.numbers[drive] = seat.view.number;
            seat.view.held[drive] = true;
            Taken::Held
        } else {
            Taken::Busy(found)
        }
    }

    fn give(&mut self, seat: &mut LocalSeat, drive: usize) {
        self.numbers[drive] = 0;
        seat.view.held[drive] = false;
        seat.count(StepKind::Give, drive, seat.view.number);
    }

    fn holder(&self, seat: &mut LocalSeat, drive: usize) -> u64 {
        let found = self.numbers[drive];
        seat.count(StepKind::Look, drive, found);
        found
    }

    ghost numbered = { λ all s h. (h.numbered, h.made) };

    ghost agrees = { λ all s d n h k.
        let a = h.agrees d k.0 in
        let e = k.1 in
        (λ is. Prim.grind (arith, nat_tests), λ holds. Prim.grind (arith, nat_tests)) };
}
