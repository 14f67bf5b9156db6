// Strokes: one element drawn or rubbed out, before the first step.
ghost use Rattle.std.specs.Prelude.{◌≡◌, OnErr};
ghost use Rattle.grammar.specs.Calls.{Stroke as Struck, stroke as StrokeCall, done as Done};
ghost use Rattle.drawing.specs.Strikes.{Strikes};
ghost use Rattle.drawing.specs.View.{answer, drawing_call as DrawingCall, rubbing_call as RubbingCall, Goes};

use crate::drawing::Drawing;
use crate::replaced::change_both;
use kinds::kind::Kind;
use lattice::refusal::Refusal;
use rulebook::stroke::Stroke;
use sheets::change::{Change, Difference, Sum};

impl<'a, 'b, 'c, M: Kind, C: Kind> Drawing<'a, 'b, 'c, M, C> {
    // The drawing is changed by one element.
    fn strike<W: Change>(&mut self, stroke: Stroke<M, C>) -> Result<(), Refusal>
        ensures goes { (st : Struck M C) → Strikes M.Kind.model C.Kind.model W.op stroke st → Goes M.Kind.model C.Kind.model self.old (StrokeCall st) (answer result (λ _. Done)) self.new }
        ensures kept { OnErr result (self.new ≡ self.old) }
    {
        if self.recorded() > 0 {
            return Err(Refusal::StepRecorded);
        }
        match stroke {
            Stroke::Mark(e) => change_both::<W, M>(&mut self.marks, &mut self.start_marks, e),
            Stroke::Cut(e) => change_both::<W, C>(&mut self.cuts, &mut self.start_cuts, e),
        }
    }

    // One element is drawn.
    pub fn draw(&mut self, stroke: Stroke<M, C>) -> Result<(), Refusal>
        ensures goes { Goes M.Kind.model C.Kind.model self.old (DrawingCall stroke) (answer result (λ _. Done)) self.new }
        ensures kept { OnErr result (self.new ≡ self.old) }
    {
        self.strike::<Sum>(stroke)
    }

    // One element is rubbed out.
    pub fn rub(&mut self, stroke: Stroke<M, C>) -> Result<(), Refusal>
        ensures goes { Goes M.Kind.model C.Kind.model self.old (RubbingCall stroke) (answer result (λ _. Done)) self.new }
        ensures kept { OnErr result (self.new ≡ self.old) }
    {
        self.strike::<Difference>(stroke)
    }
}
