// What is asked of a drawing: how many places a rule has, which comes next, which has a number, and all of them.
ghost use Rattle.std.specs.Prelude.{◌≡◌, List, MatchResult, OnErr};
ghost use Rattle.grammar.specs.Calls.{Event, pick as Pick, count as Count, next as Next, list as ListAll, refused as RefusedBy, counted as Counted, next_is as NextIs, listed as ListedAs};
ghost use Rattle.grammar.specs.Numbers.{ordinal as Ordinal};
ghost use Rattle.grammar.specs.State.{Setting};
ghost use Rattle.lattice.specs.Refusals.{number as Number};
ghost use Rattle.search.specs.Steps.{bound as Bound};
ghost use Rattle.drawing.specs.Asking.{Shown, Seeks, Barred};
ghost use Rattle.drawing.specs.Steps.{Listing};
ghost use Rattle.drawing.specs.View.{answer, Goes, Lived};

use crate::drawing::Drawing;
use kinds::kind::Kind;
use lattice::placement::Placement;
use lattice::refusal::Refusal;
use rulebook::records::RuleRecord;
use search::scene::Scene;

impl<'a, 'b, 'c, M: Kind, C: Kind> Drawing<'a, 'b, 'c, M, C> {
    // The left side of a rule, and the drawing on which it is looked for.
    fn scene(&self, found: RuleRecord) -> Scene<M, C>
        ensures { Shown self.now found result }
    {
        Scene {
            left_marks: self.book.left_marks(found),
            left_cuts: self.book.left_cuts(found),
            marks: self.marks.elements(),
            cuts: self.cuts.elements(),
        }
    }

    // The same of the rule with a number, if there is one and its left side is not empty.
    fn sought(&self, rule: i32) -> Result<Scene<M, C>, Refusal>
        ensures { MatchResult result (λ s. Seeks M.Kind.model C.Kind.model self.now (Ordinal rule) s) (λ why. Barred M.Kind.model C.Kind.model self.now (Ordinal rule) why) }
    {
        let found = self.book.find(rule).ok_or(Refusal::NoSuchRule)?;
        let scene = self.scene(found);
        if scene.left_marks.len() > 0 {
            return Ok(scene);
        }
        if scene.left_cuts.len() > 0 {
            return Ok(scene);
        }
        Err(Refusal::EmptyLeft)
    }

    // The place with a number.
    pub(crate) fn place(&self, rule: i32, number: i32) -> Result<Placement, Refusal>
        ensures { MatchResult result (λ p. (t : Setting M C) (es : List (Event M C)) → Lived M.Kind.model C.Kind.model t es self.now → Listing M.Kind.model C.Kind.model self.now (Ordinal rule) (Ordinal number) p) (λ why. Goes M.Kind.model C.Kind.model self.now (Pick rule number) (RefusedBy (Number why)) self.now) }
    {
        let scene = self.sought(rule)?;
        scene.place(number).ok_or(Refusal::NoSuchPlace)
    }

    // How many places a rule has.
    pub fn count(&self, rule: i32) -> Result<u32, Refusal>
        ensures { Goes M.Kind.model C.Kind.model self.now (Count rule) (answer result Counted) self.now }
    {
        let scene = self.sought(rule)?;
        Ok(scene.count())
    }

    // The first place of a rule after any three numbers, read as a turn, a shift across and a shift up.
    pub fn next(&self, rule: i32, after: (i32, i32, i32)) -> Result<Option<Placement>, Refusal>
        ensures { Goes M.Kind.model C.Kind.model self.now (Next rule (Bound after)) (answer result NextIs) self.now }
    {
        let scene = self.sought(rule)?;
        Ok(scene.next(after))
    }

    // Writes all places of a rule from the front of the buffer and says how many; the rest remains. All of it remains if the
    // call is refused.
    pub fn list(&self, rule: i32, out: &mut [Placement]) -> Result<usize, Refusal>
        ensures goes { Goes M.Kind.model C.Kind.model self.now (ListAll rule out.old) (answer result (λ n. ListedAs n out.new)) self.now }
        ensures kept { OnErr result (out.new ≡ out.old) }
    {
        let scene = self.sought(rule)?;
        scene.list(out)
    }
}
