// The contents of a grammar file: how many bytes each part of it has.
ghost use Rattle.std.specs.Prelude.{◌≤◌};
ghost use Rattle.notation.specs.declared.contents.TheConstants.{MOST_RULES};

// The most rules that a file may have.
pub const MOST_RULES: usize = 32;

// One line of the contents.
#[derive(Clone, Copy, PartialEq, Eq, Debug)]
pub enum Entry {
    Start(u32),
    Rule(u32),
    Steps(u32),
    Body,
}

// What comes next, after the lines that were read.
#[derive(Clone, Copy, PartialEq, Eq, Debug)]
pub enum Stage {
    Start,
    Rules,
    Body,
    Whole,
}

// The lengths that were read: of the start, of the first `count` rules, and of the steps. The rules lie in an array with a
// count, since contents are copied as a value (`Copy`), which a list in memory of its own is not.
#[derive(Clone, Copy, PartialEq, Eq, Debug)]
pub struct Contents {
    pub stage: Stage,
    pub start: u32,
    pub rules: [u32; MOST_RULES],
    pub count: usize,
    pub steps: u32,
    ghost few: { count ≤ MOST_RULES },
}
