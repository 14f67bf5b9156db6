// Steps: a rule is applied at one of its places, and the latest step is taken back.
ghost use Rattle.std.specs.Prelude.{◌≡◌, ℕ, ◌≤◌, ◌&&◌, length, ℤ, Some, Decides, OnErr};
ghost use Rattle.grammar.specs.Calls.{pick as Pick, undo as Undo, done as Done};
ghost use Rattle.grammar.specs.Numbers.{ordinal as Ordinal};
ghost use Rattle.rulebook.specs.Rulebooks.{rule_of as RuleOf, Finds};
ghost use Rattle.drawing.specs.Changes.{stays as Stays};
ghost use Rattle.drawing.specs.Steps.{Fits, Stepped, Listing, Redone, Replayed};
ghost use Rattle.drawing.specs.View.{answer, Goes};

use crate::drawing::Drawing;
use crate::records::StepRecord;
use crate::replaced::{all_stay, has_room, replace};
use kinds::kind::Kind;
use lattice::placement::Placement;
use lattice::refusal::Refusal;
use rulebook::records::RuleRecord;

impl<'a, 'b, 'c, M: Kind, C: Kind> Drawing<'a, 'b, 'c, M, C> {
    // The placed left side is taken off both sheets, and then the placed right side put on.
    fn turn(&mut self, found: RuleRecord, p: Placement)
        ensures { Stepped M.Kind.model C.Kind.model found p self.old self.new }
    {
        let book = self.book;
        replace(
            &mut self.marks,
            book.left_marks(found),
            book.right_marks(found),
            p,
        );
        replace(
            &mut self.cuts,
            book.left_cuts(found),
            book.right_cuts(found),
            p,
        );
    }

    // Whether the right side, placed, stays in the field.
    fn right_stays(&self, found: RuleRecord, p: Placement) -> bool
        ensures { result ≡ (Stays M.Kind.model p (RuleOf self.now.book.now found).right.marks && Stays C.Kind.model p (RuleOf self.now.book.now found).right.cuts) }
    {
        all_stay(self.book.right_marks(found), p) && all_stay(self.book.right_cuts(found), p)
    }

    // Whether on both sheets the elements now, with those of both sides, do not exceed the slots.
    fn is_roomy(&self, found: RuleRecord) -> bool
        ensures { Decides result (Fits self.now found) }
    {
        let left = self.book.left_marks(found).len();
        let right = self.book.right_marks(found).len();
        if !has_room(&self.marks, left, right) {
            return false;
        }
        let left = self.book.left_cuts(found).len();
        let right = self.book.right_cuts(found).len();
        has_room(&self.cuts, left, right)
    }

    // The rule of this number, which is `found`, is applied at `p`.
    fn apply_found(&mut self, rule: i32, found: RuleRecord, p: Placement) -> Result<(), Refusal>
        ensures goes { (k : ℤ) → Finds self.old.book.now (Ordinal rule) (Some found) → Listing M.Kind.model C.Kind.model self.old (Ordinal rule) (Ordinal k) p → Goes M.Kind.model C.Kind.model self.old (Pick rule k) (answer result (λ _. Done)) self.new }
        ensures kept { OnErr result (self.new ≡ self.old) }
    {
        if !self.right_stays(found, p) {
            return Err(Refusal::LeavesField);
        }
        let n = self.recorded();
        if n >= self.steps.len() {
            return Err(Refusal::StepsFull);
        }
        if !self.is_roomy(found) {
            return Err(Refusal::NoRoom);
        }
        self.turn(found, p);
        self.steps[n] = StepRecord { rule, at: p };
        self.step_count = n + 1;
        Ok(())
    }

    // The rule of this number is applied at `p`, one of its places.
    fn apply(&mut self, rule: i32, p: Placement) -> Result<(), Refusal>
        ensures goes { (k : ℤ) → Listing M.Kind.model C.Kind.model self.old (Ordinal rule) (Ordinal k) p → Goes M.Kind.model C.Kind.model self.old (Pick rule k) (answer result (λ _. Done)) self.new }
        ensures kept { OnErr result (self.new ≡ self.old) }
    {
        let found = self.book.find(rule).ok_or(Refusal::NoSuchRule)?;
        self.apply_found(rule, found, p)
    }

    // The rule of this number is applied at the place of this number.
    pub fn pick(&mut self, rule: i32, number: i32) -> Result<(), Refusal>
        ensures goes { Goes M.Kind.model C.Kind.model self.old (Pick rule number) (answer result (λ _. Done)) self.new }
        ensures kept { OnErr result (self.new ≡ self.old) }
    {
        let p = self.place(rule, number)?;
        self.apply(rule, p)
    }

    // A recorded step is made.
    fn again(&mut self, step: StepRecord)
        ensures { Redone M.Kind.model C.Kind.model step self.old self.new }
    {
        let book = self.book;
        if let Some(found) = book.find(step.rule) {
            self.turn(found, step.at);
        }
    }

    // The first `n` recorded steps are made. Each is read by its index, since the drawing that has them changes with each.
    fn replay(&mut self, n: usize)
        requires { n ≤ length self.old.steps.now }
        ensures { Replayed M.Kind.model C.Kind.model n self.old self.new }
    {
        for i in 0..n {
            let step = self.steps[i];
            self.again(step);
        }
    }

    // The latest step is taken back: the sheets are made again from the start copies and the other steps.
    pub fn undo(&mut self) -> Result<(), Refusal>
        ensures goes { Goes M.Kind.model C.Kind.model self.old Undo (answer result (λ _. Done)) self.new }
        ensures kept { OnErr result (self.new ≡ self.old) }
    {
        let n = self.recorded();
        if n == 0 {
            return Err(Refusal::NoStep);
        }
        self.step_count = n - 1;
        let _ = self.marks.copy_from(&self.start_marks);
        let _ = self.cuts.copy_from(&self.start_cuts);
        self.replay(n - 1);
        Ok(())
    }
}
