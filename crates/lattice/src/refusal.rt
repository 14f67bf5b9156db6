// Why a call is refused. A refusal is known by its number, which docs/refusals.md lists.
ghost use Rattle.std.specs.Prelude.{◌≡◌};
ghost use Rattle.lattice.specs.Refusals.{number as Number};

#[derive(Clone, Copy, PartialEq, Eq, Debug)]
pub enum Refusal {
    NotAGrammar = 1,
    BadContents = 2,
    BadLengths = 3,
    BadLine = 4,
    BadNumber = 5,
    OutOfRange = 6,
    EqualEnds = 7,
    RulebookFull = 8,
    NoRuleYet = 9,
    BadTables = 10,
    StepRecorded = 11,
    NoStep = 12,
    NoSuchRule = 13,
    EmptyLeft = 14,
    NoSuchPlace = 15,
    LeavesField = 16,
    StepsFull = 17,
    NoRoom = 18,
    SheetFull = 19,
    BufferFull = 20,
}

impl Refusal {
    // The number under which the refusal is printed and documented.
    pub fn number(self) -> u8
        ensures { result ≡ Number self }
    {
        self as u8
    }
}
