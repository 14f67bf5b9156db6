// A turn: one of the eight ways in which the lattice lies on itself.
ghost use Rattle.std.specs.Prelude.{◌≡◌, true, false, MatchOption, nat_lt};
ghost use Rattle.lattice.specs.Turns.{index as Index, across as Across, upward as Upward};

// In the order of their indices: four quarter turns to the left, and the same of the lattice mirrored left for right.
#[derive(Clone, Copy, PartialEq, Eq, Debug)]
pub enum Turn {
    Whole,
    Quarter,
    Half,
    ThreeQuarters,
    Mirrored,
    MirroredQuarter,
    MirroredHalf,
    MirroredThreeQuarters,
}

impl Turn {
    // All eight, each at its index.
    pub const ALL: [Turn; 8] = [
        Turn::Whole,
        Turn::Quarter,
        Turn::Half,
        Turn::ThreeQuarters,
        Turn::Mirrored,
        Turn::MirroredQuarter,
        Turn::MirroredHalf,
        Turn::MirroredThreeQuarters,
    ];

    // The turn of an index, if there is one.
    pub fn new(index: u8) -> Option<Turn>
        ensures { MatchOption result (nat_lt index 8 ≡ false) (λ t. (nat_lt index 8 ≡ true) × (Index t ≡ index)) }
    {
        Turn::ALL.get(usize::from(index)).copied()
    }

    pub fn index(self) -> u8
        ensures { result ≡ Index self }
    {
        self as u8
    }

    // Where the turn takes a point: across, and up.
    #[tactic(auto, unfolding(crate::specs::Turns::across, crate::specs::Turns::upward))]
    pub fn turned(self, x: i32, y: i32) -> (i64, i64)
        ensures across { result.0 ≡ Across (Index self) x y }
        ensures upward { result.1 ≡ Upward (Index self) x y }
    {
        let (x, y) = (i64::from(x), i64::from(y));
        match self {
            Turn::Whole => (x, y),
            Turn::Quarter => (-y, x),
            Turn::Half => (-x, -y),
            Turn::ThreeQuarters => (y, -x),
            Turn::Mirrored => (-x, y),
            Turn::MirroredQuarter => (-y, -x),
            Turn::MirroredHalf => (x, -y),
            Turn::MirroredThreeQuarters => (y, x),
        }
    }
}
