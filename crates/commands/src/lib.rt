// What a grammar file can ask for, line by line.
#![tactic(auto)]

use elements::ink::Ink;
use elements::point::Point;
use rulebook::stroke::Stroke;
use segments::segment::Segment;

// An inked point.
pub type Mark = Ink<Point>;

// An inked segment.
pub type Cut = Ink<Segment>;

// A line of the start: one element for the sheet of its kind.
pub type StartLine = Stroke<Mark, Cut>;

// A line of a rule: one element for one of its sides.
#[derive(Clone, Copy, PartialEq, Eq, Debug)]
pub enum SideLine {
    Left(Stroke<Mark, Cut>),
    Right(Stroke<Mark, Cut>),
}

// A line of the steps.
#[derive(Clone, Copy, PartialEq, Eq, Debug)]
pub enum StepLine {
    Pick(Pick),
    Undo,
}

// A rule and one of its places, by their numbers.
#[derive(Clone, Copy, PartialEq, Eq, Debug)]
pub struct Pick {
    pub rule: i32,
    pub place: i32,
}
