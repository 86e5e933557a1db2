//! The rule that holds between any two atomic steps on the table, and what a seat learns from each
//! kind of step.
use atomic_table::{Join, Play, Split, TableRule};
use drives::View;
use std::collections::LinkedList;

/// What the table knows about a seat. No value of it is made: it is used only in proofs, where its
/// counts have no limit.
pub struct Seated {
    /// What the seat knows.
    pub view: View,
    /// How many steps it has made.
    pub made: u64,
    /// How many numbers it may still pass on to new seats.
    pub spare: u64,
}

/// The seats that one seat of `atomic_table` represents: one seat, before its witnesses.
pub(crate) type SeatGroup = LinkedList<Seated>;

/// The rule of the table. Its key is the number of drives.
pub struct HoldLaw;

impl TableRule<(), SeatGroup, usize> for HoldLaw {
    ghost use Rattle.std.specs.Prelude.{◌-◌, [], ◌∷◌};
    ghost use Rattle.drives.specs.Holding.{newcomer};
    ghost use Rattle.hold_table.specs.declared.table.TheConstants.{SEAT_LIMIT};
    ghost use Rattle.hold_table.specs.Rule.{seated};
    ghost use Rattle.hold_table.specs.Keeping.{KeepsRule};

    ghost holds = { λ drives s. KeepsRule drives s.words s.views };

    ghost first = { λ _. seated (newcomer 1) 0 (SEAT_LIMIT - 1) ∷ [] };
}

/// A seat passes its spare numbers on to a new seat.
pub(crate) struct Deal;

impl Split<SeatGroup> for Deal {
    ghost use Rattle.std.specs.Prelude.{[], ◌∷◌};
    ghost use Rattle.hold_table.specs.Keeping.{first_of, settled, following};

    ghost left = { λ c. settled (first_of c) ∷ [] };

    ghost right = { λ c. following (first_of c) ∷ [] };
}

pub(crate) struct Takes;

impl Play<(), SeatGroup> for Takes {
    ghost use Rattle.hold_table.specs.Keeping.{TakesAt};

    ghost then = { TakesAt };
}

pub(crate) struct Gives;

impl Play<(), SeatGroup> for Gives {
    ghost use Rattle.hold_table.specs.Keeping.{GivesAt};

    ghost then = { GivesAt };
}

pub(crate) struct Looks;

impl Play<(), SeatGroup> for Looks {
    ghost use Rattle.hold_table.specs.Keeping.{LooksAt};

    ghost then = { LooksAt };
}

/// The first seat of another group is added to a group, before its own.
pub(crate) struct Gather;

impl Join<SeatGroup> for Gather {
    ghost use Rattle.std.specs.Prelude.{[], ◌∷◌};
    ghost use Rattle.hold_table.specs.Keeping.{first_of};

    ghost both = { λ c d. first_of d ∷ c };

    ghost spent = { [] };
}

/// The first seat of another group becomes the first witness of a group's first seat.
pub(crate) struct Invite;

impl Join<SeatGroup> for Invite {
    ghost use Rattle.std.specs.Prelude.{[], ◌∷◌};
    ghost use Rattle.hold_table.specs.Keeping.{first_of, others_of};

    ghost both = { λ c d. first_of c ∷ first_of d ∷ others_of c };

    ghost spent = { [] };
}

/// The first witness leaves a group, and is a group of its own.
pub(crate) struct Dismiss;

impl Split<SeatGroup> for Dismiss {
    ghost use Rattle.std.specs.Prelude.{[], ◌∷◌};
    ghost use Rattle.hold_table.specs.Keeping.{first_of, second_of, others_of};

    ghost left = { λ c. first_of c ∷ others_of (others_of c) };

    ghost right = { λ c. second_of c ∷ [] };
}

/// One look by a seat with a witness, which changes neither.
pub(crate) struct Compares;

impl Play<(), SeatGroup> for Compares {
    ghost use Rattle.hold_table.specs.Keeping.{ComparesAt};

    ghost then = { ComparesAt };
}

pub(crate) struct Enters;

impl Play<(), SeatGroup> for Enters {
    ghost use Rattle.hold_table.specs.Keeping.{EntersAt};

    ghost then = { EntersAt };
}
