// A step as it is kept: the number of the rule, and the place at which it was applied.
use lattice::placement::Placement;

#[derive(Clone, Copy, PartialEq, Eq, Debug)]
pub struct StepRecord {
    pub rule: i32,
    pub at: Placement,
}
