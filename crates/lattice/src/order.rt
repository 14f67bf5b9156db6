// The order of placements: by turn, then by the shift across, then by the shift up, which is that of a tuple of the three.
ghost use Rattle.std.specs.Prelude.{◌≡◌, Decides};
ghost use Rattle.lattice.specs.Order.{Before, Earlier, triple as Triple, read as Reading};

use crate::placement::Placement;

// Whether the one comes before the other, both read as a turn, a shift across and a shift up.
pub fn before(a: (i32, i32, i32), b: (i32, i32, i32)) -> bool
    ensures { Decides result (Before (Reading a.0 a.1 a.2) (Reading b.0 b.1 b.2)) }
{
    a < b
}

impl Placement {
    // The placement as three numbers: turn, shift across, shift up.
    pub fn numbers(self) -> (i32, i32, i32)
        ensures { Reading result.0 result.1 result.2 ≡ Triple self }
    {
        (i32::from(self.turn().index()), self.across(), self.up())
    }

    // Whether the placement comes after the one of these numbers, which may be any.
    pub fn after(self, turn: i32, across: i32, up: i32) -> bool
        ensures { Decides result (Before (Reading turn across up) (Triple self)) }
    {
        before((turn, across, up), self.numbers())
    }

    // Whether the placement comes before another: by their numbers, since that an order derived for turns is that of their
    // indices was not proved when it was tried.
    pub fn earlier(self, other: Placement) -> bool
        ensures { Decides result (Earlier self other) }
    {
        before(self.numbers(), other.numbers())
    }
}
