// A drawing: its sheets, their copies from before the first step, and the steps. The rulebook is held by a shared
// reference, so that no rule changes while a drawing rests on it. The rulebook's tables ('a), the rulebook itself ('b) and
// the drawing's tables ('c) are lent for times of their own. The steps lie in memory of the caller too, with a count beside.
ghost use Rattle.std.specs.Prelude.{◌≡◌, ◌≤◌, [], length, MatchResult};
ghost use Rattle.lattice.specs.Refusals.{number as Number};
ghost use Rattle.rulebook.specs.Rulebooks.{rules_of as RulesOf};
ghost use Rattle.sheets.specs.Contents.{items};
ghost use Rattle.drawing.specs.View.{taken, Lived, Tables};

use crate::records::StepRecord;
use kinds::kind::Kind;
use lattice::refusal::Refusal;
use rulebook::rulebook::Rulebook;
use sheets::sheet::Sheet;

// The most steps that a drawing can have.
pub const MOST_STEPS: usize = 1024;

#[derive(Drop)]
pub struct Drawing<'a, 'b, 'c, M, C> {
    pub(crate) book: &'b Rulebook<'a, M, C>,
    pub(crate) marks: Sheet<'c, M>,
    pub(crate) cuts: Sheet<'c, C>,
    pub(crate) start_marks: Sheet<'c, M>,
    pub(crate) start_cuts: Sheet<'c, C>,
    pub(crate) steps: &'c mut [StepRecord],
    pub(crate) step_count: usize,
}

impl<'a, 'b, 'c, M: Kind, C: Kind> Drawing<'a, 'b, 'c, M, C> {
    // An empty drawing over tables: at most 4096 slots a sheet and 1024 steps, and start copies as long as their sheets.
    pub fn begin(
        book: &'b Rulebook<'a, M, C>,
        marks: &'c mut [M],
        cuts: &'c mut [C],
        start_marks: &'c mut [M],
        start_cuts: &'c mut [C],
        steps: &'c mut [StepRecord],
    ) -> Result<Drawing<'a, 'b, 'c, M, C>, Refusal>
        ensures { MatchResult result (λ d. Lived M.Kind.model C.Kind.model (record { rules = RulesOf book.now; mark_slots = length marks.old; cut_slots = length cuts.old; step_slots = length steps.old }) [] d × Tables (length marks.old) (length cuts.old) (length start_marks.old) (length start_cuts.old) (length steps.old)) (λ why. (Number why ≡ 10) × (Tables (length marks.old) (length cuts.old) (length start_marks.old) (length start_cuts.old) (length steps.old) → ⊥)) }
    {
        if start_marks.len() != marks.len() {
            return Err(Refusal::BadTables);
        }
        if start_cuts.len() != cuts.len() {
            return Err(Refusal::BadTables);
        }
        if steps.len() > MOST_STEPS {
            return Err(Refusal::BadTables);
        }
        let marks = Sheet::new(marks)?;
        let cuts = Sheet::new(cuts)?;
        let start_marks = Sheet::new(start_marks)?;
        let start_cuts = Sheet::new(start_cuts)?;
        Ok(Drawing {
            book,
            marks,
            cuts,
            start_marks,
            start_cuts,
            steps,
            step_count: 0,
        })
    }

    // The maximal elements of the marks, in order.
    pub fn marks(&self) -> &[M]
        ensures { result.now ≡ items self.now.marks }
    {
        self.marks.elements()
    }

    // The maximal elements of the cuts, in order.
    pub fn cuts(&self) -> &[C]
        ensures { result.now ≡ items self.now.cuts }
    {
        self.cuts.elements()
    }

    // How many steps are recorded.
    pub fn recorded(&self) -> usize
        ensures value { result ≡ length (taken self.now) }
        ensures within { result ≤ length self.now.steps.now }
    {
        self.step_count.min(self.steps.len())
    }
}
