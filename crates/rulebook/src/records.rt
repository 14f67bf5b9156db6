// Rules as they are kept: a record has, for each side and kind, where in the table its elements lie.
use crate::table::Stretch;

#[derive(Clone, Copy, PartialEq, Eq, Debug)]
pub struct SideRecord {
    pub marks: Stretch,
    pub cuts: Stretch,
}

#[derive(Clone, Copy, PartialEq, Eq, Debug)]
pub struct RuleRecord {
    pub left: SideRecord,
    pub right: SideRecord,
}
