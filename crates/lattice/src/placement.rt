// A placement, valid by type: a turn, then a shift across and up, each from -4000 to 4000.
ghost use Rattle.std.specs.Prelude.{◌≡◌, true, false, ◌&&◌, ◌+ℤ◌, MatchOption};
ghost use Rattle.lattice.specs.Field.{shifting};
ghost use Rattle.lattice.specs.Turns.{index as Index, across as Across, upward as Upward};

use crate::field::may_shift;
use crate::turn::Turn;

#[derive(Clone, Copy, PartialEq, Eq, Debug)]
pub struct Placement {
    turn: Turn,
    across: i32,
    up: i32,
    ghost sideways: { shifting across ≡ true },
    ghost upwards: { shifting up ≡ true },
}

impl Placement {
    // The placement of a turn and two shifts, if it may shift so far.
    pub fn new(turn: Turn, across: i32, up: i32) -> Option<Placement>
        ensures { MatchOption result ((shifting across && shifting up) ≡ false) (λ p. ((shifting across && shifting up) ≡ true) × (p.turn ≡ turn) × (p.across ≡ across) × (p.up ≡ up)) }
    {
        if may_shift(across) && may_shift(up) {
            Some(Placement { turn, across, up })
        } else {
            None
        }
    }

    pub fn turn(self) -> Turn
        ensures { result ≡ self.turn }
    {
        self.turn
    }

    pub fn across(self) -> i32
        ensures { result ≡ self.across }
    {
        self.across
    }

    pub fn up(self) -> i32
        ensures { result ≡ self.up }
    {
        self.up
    }

    // Where the placement takes a point: across, and up.
    pub fn moved(self, x: i32, y: i32) -> (i64, i64)
        ensures across { result.0 ≡ Across (Index self.turn) x y +ℤ self.across }
        ensures up { result.1 ≡ Upward (Index self.turn) x y +ℤ self.up }
    {
        let (x, y) = self.turn.turned(x, y);
        (x + i64::from(self.across), y + i64::from(self.up))
    }
}
