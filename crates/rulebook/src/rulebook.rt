// The rulebook itself.
use crate::records::RuleRecord;
use crate::table::Table;
use notation::contents::MOST_RULES;

// The tables of one side. It is no generic pair of marks and cuts: the two fields are of different kinds, and each such pair
// means another thing (tables here, stretches in a record, sheets in a drawing).
#[derive(Drop)]
pub struct SideTables<'a, M, C> {
    pub(crate) marks: Table<'a, M>,
    pub(crate) cuts: Table<'a, C>,
}

// Records of 32 rules, of which the first `count` are kept, and the tables of their two sides. The records are plain
// and lie in an array with a count, and the latest is lent to be changed.
#[derive(Drop)]
pub struct Rulebook<'a, M, C> {
    pub(crate) records: [RuleRecord; MOST_RULES],
    pub(crate) count: usize,
    pub(crate) left: SideTables<'a, M, C>,
    pub(crate) right: SideTables<'a, M, C>,
}
