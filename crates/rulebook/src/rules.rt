// Rules are added, and their sides grow, element by element.
ghost use Rattle.std.specs.Prelude.{◌≡◌, ◌+◌, ◌<◌, ◌≤◌, ◌⊎◌, [], length, MatchOption, MatchResult};
ghost use Rattle.lattice.specs.Refusals.{number as Number};
ghost use Rattle.rulebook.specs.Growing.{latest_record as LatestRecord, Closed, SideGrew, TableStayed, Added, NotAdded, Grown, NotGrown, left_side, right_side, with_left, with_right};
ghost use Rattle.grammar.specs.Numbers.{ordinal as Ordinal};
ghost use Rattle.rulebook.specs.Rulebooks.{rules_of as RulesOf, rule_of as RuleOf, KeptSide, Kept, Finds, NoNumber, HasNumber};

use crate::records::{RuleRecord, SideRecord};
use crate::rulebook::{Rulebook, SideTables};
use crate::stroke::Stroke;
use crate::table::{Stretch, Table};
use grammar::ordinal::ordinal;
use kinds::kind::Kind;
use lattice::refusal::Refusal;
pub use notation::contents::MOST_RULES;

const EMPTY: Stretch = Stretch { from: 0, to: 0 };

impl<'a, M: Kind, C: Kind> SideTables<'a, M, C> {
    // Two tables without a stretch.
    pub fn new(marks: &'a mut [M], cuts: &'a mut [C]) -> Result<SideTables<'a, M, C>, Refusal>
        ensures { MatchResult result (λ t. KeptSide M.Kind.model C.Kind.model [] t × (length t.marks.slots.now ≡ length marks.old) × (length t.cuts.slots.now ≡ length cuts.old)) (λ why. (Number why ≡ 10) × (length marks.old ≤ 4096 → length cuts.old ≤ 4096 → ⊥)) }
    {
        let marks = Table::new(marks)?;
        let cuts = Table::new(cuts)?;
        Ok(SideTables { marks, cuts })
    }

    // The stretches of the latest rule.
    fn record(&self) -> SideRecord
        ensures { result ≡ LatestRecord self.now }
    {
        SideRecord {
            marks: self.marks.stretch(),
            cuts: self.cuts.stretch(),
        }
    }

    // The latest rule is closed, and an empty one begins.
    fn close(&mut self)
        ensures { Closed self.old self.new }
    {
        self.marks.close();
        self.cuts.close();
    }

    // The latest rule's side becomes its sum with one element.
    fn sum(&mut self, stroke: Stroke<M, C>) -> Result<(), Refusal>
        ensures { MatchResult result (λ _. SideGrew M.Kind.model C.Kind.model stroke self.old self.new) (λ why. (self.new ≡ self.old) × TableStayed M.Kind.model C.Kind.model stroke why self.old self.new) }
    {
        match stroke {
            Stroke::Mark(e) => self.marks.sum(e),
            Stroke::Cut(e) => self.cuts.sum(e),
        }
    }
}

// The latest rule's side, of which this is the record, becomes its sum with one element.
fn grow<M: Kind, C: Kind>(
    tables: &mut SideTables<M, C>,
    side: &mut SideRecord,
    stroke: Stroke<M, C>,
) -> Result<(), Refusal>
    ensures { MatchResult result (λ _. SideGrew M.Kind.model C.Kind.model stroke tables.old tables.new × (side.new ≡ LatestRecord tables.new)) (λ why. (tables.new ≡ tables.old) × (side.new ≡ side.old) × TableStayed M.Kind.model C.Kind.model stroke why tables.old tables.new) }
{
    tables.sum(stroke)?;
    *side = tables.record();
    Ok(())
}

impl<'a, M: Kind, C: Kind> Rulebook<'a, M, C> {
    // No rule, and tables for the sides of all.
    pub fn new(left: SideTables<'a, M, C>, right: SideTables<'a, M, C>) -> Rulebook<'a, M, C>
        ensures rules { RulesOf result ≡ [] }
        ensures kept { KeptSide M.Kind.model C.Kind.model [] left.entry → KeptSide M.Kind.model C.Kind.model [] right.entry → Kept M.Kind.model C.Kind.model result }
    {
        let side = SideRecord {
            marks: EMPTY,
            cuts: EMPTY,
        };
        Rulebook {
            records: [RuleRecord {
                left: side,
                right: side,
            }; MOST_RULES],
            count: 0,
            left,
            right,
        }
    }

    // A rule with empty sides is added.
    pub fn rule(&mut self) -> Result<(), Refusal>
        ensures { MatchResult result (λ _. Added M.Kind.model C.Kind.model self.old self.new) (λ why. NotAdded M.Kind.model C.Kind.model why self.old self.new) }
    {
        let n = self.count;
        if n >= MOST_RULES {
            return Err(Refusal::RulebookFull);
        }
        self.left.close();
        self.right.close();
        let left = self.left.record();
        let right = self.right.record();
        self.records[n] = RuleRecord { left, right };
        self.count = n + 1;
        Ok(())
    }

    // Where the latest rule's record lies.
    fn latest(&self) -> Result<usize, Refusal>
        ensures { MatchResult result (λ at. (self.now.count ≡ at + 1) × (at < 32)) (λ why. (Number why ≡ 9) × ((self.now.count ≡ 0) ⊎ (32 < self.now.count))) }
    {
        let n = self.count;
        if n == 0 || n > MOST_RULES {
            return Err(Refusal::NoRuleYet);
        }
        Ok(n - 1)
    }

    // The left side of the latest rule becomes its sum with one element.
    pub fn left(&mut self, stroke: Stroke<M, C>) -> Result<(), Refusal>
        ensures { MatchResult result (λ _. Grown M.Kind.model C.Kind.model left_side with_left stroke self.old self.new) (λ why. NotGrown M.Kind.model C.Kind.model left_side self.old.left stroke why self.old self.new) }
    {
        let at = self.latest()?;
        let latest = &mut self.records[at];
        grow(&mut self.left, &mut latest.left, stroke)
    }

    // The right side of the latest rule becomes its sum with one element.
    pub fn right(&mut self, stroke: Stroke<M, C>) -> Result<(), Refusal>
        ensures { MatchResult result (λ _. Grown M.Kind.model C.Kind.model right_side with_right stroke self.old self.new) (λ why. NotGrown M.Kind.model C.Kind.model right_side self.old.right stroke why self.old self.new) }
    {
        let at = self.latest()?;
        let latest = &mut self.records[at];
        grow(&mut self.right, &mut latest.right, stroke)
    }

    // Rule number `r`, counted from 1.
    pub fn find(&self, r: i32) -> Option<RuleRecord>
        ensures { Finds self.now (Ordinal r) result }
    {
        record_at(&self.records, self.count, ordinal(r) as usize)
    }

    // The marks of a rule's left side. It, and each of the three below, names fields of its own.
    pub fn left_marks(&self, found: RuleRecord) -> &[M]
        ensures { result.now ≡ (RuleOf self.now found).left.marks }
    {
        self.left.marks.part(found.left.marks)
    }

    // The cuts of a rule's left side.
    pub fn left_cuts(&self, found: RuleRecord) -> &[C]
        ensures { result.now ≡ (RuleOf self.now found).left.cuts }
    {
        self.left.cuts.part(found.left.cuts)
    }

    // The marks of a rule's right side.
    pub fn right_marks(&self, found: RuleRecord) -> &[M]
        ensures { result.now ≡ (RuleOf self.now found).right.marks }
    {
        self.right.marks.part(found.right.marks)
    }

    // The cuts of a rule's right side.
    pub fn right_cuts(&self, found: RuleRecord) -> &[C]
        ensures { result.now ≡ (RuleOf self.now found).right.cuts }
    {
        self.right.cuts.part(found.right.cuts)
    }
}

// Number `n` of the first `count` records, if there is one.
fn record_at(all: &[RuleRecord], count: usize, n: usize) -> Option<RuleRecord>
    ensures { MatchOption result (NoNumber all.now count n) (λ y. HasNumber all.now count n y) }
{
    if n > count {
        return None;
    }
    all.get(n.checked_sub(1)?).copied()
}
