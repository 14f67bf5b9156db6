// Histories of real calls on drawings of inked points and inked segments. Each contract states the whole outcome.
#![tactic(auto)]

ghost use Rattle.std.specs.Prelude.{◌≡◌, [], ◌∷◌};
ghost use Rattle.cases.specs.Cases.{two as Two, move_on as MoveOn, step_right as StepRight};
ghost use Rattle.cases.specs.Figures.{marks as MarkModel, cuts as CutModel, setting as SettingOf};
ghost use Rattle.drawing.specs.View.{Lived};
ghost use Rattle.histories.specs.Outcomes.{edge as EdgePoint, Undone, StaysInField};

use drawing::drawing::Drawing;
use elements::ink::Ink;
use elements::point::Point;
use lattice::refusal::Refusal;
use rulebook::stroke::Stroke;
use segments::segment::Segment;

// A cut of two is drawn, its first half is moved on by the rule, and the step is taken back.
pub fn undone(
    drawing: &mut Drawing<Ink<Point>, Ink<Segment>>,
    cut: Ink<Segment>,
) -> Result<(), Refusal>
    ensures { Lived MarkModel CutModel (SettingOf (MoveOn ∷ []) 3) [] drawing.old → cut ≡ Two → Undone result drawing.new }
{
    drawing.draw(Stroke::Cut(cut))?;
    drawing.pick(1, 1)?;
    drawing.undo()
}

// A mark is drawn at the edge of the field. At its first place the rule would move it out, which is refused; at its third
// place the rule moves it inwards.
pub fn stays_in_field(
    drawing: &mut Drawing<Ink<Point>, Ink<Segment>>,
    mark: Ink<Point>,
) -> (
    Result<(), Refusal>,
    Result<(), Refusal>,
    Result<(), Refusal>,
)
    ensures { Lived MarkModel CutModel (SettingOf (StepRight ∷ []) 3) [] drawing.old → mark ≡ EdgePoint → StaysInField result.0 result.1 result.2 drawing.new }
{
    let drawn = drawing.draw(Stroke::Mark(mark));
    let outwards = drawing.pick(1, 1);
    let inwards = drawing.pick(1, 3);
    (drawn, outwards, inwards)
}
