// Strokes, sides and steps, each from a line without its byte 10.
ghost use Rattle.std.specs.Prelude.{◌≡◌, [], ◌∷◌, codes, MatchResult};
ghost use Rattle.lattice.specs.Refusals.{number as Number};
ghost use Rattle.notation.specs.Numbers.{NumberIs, Short};
ghost use Rattle.std.specs.Fmt.{signed_decimal};
ghost use Rattle.elements.specs.Inks.{inks};
ghost use Rattle.commands.specs.Meanings.{StrokeIs, SideIs, StepIs};
ghost use Rattle.parsing.specs.Strokes.{FieldIs, MarkMade, CutMade, MarkFields, CutFields, PickFields};

use commands::{Cut, Mark, Pick, SideLine, StepLine};
use elements::ink::Ink;
use elements::point::Point;
use lattice::refusal::Refusal;
use reading::decimals::read_number;
use reading::fields::{five_fields, three_fields, two_fields};
use reading::words::{after_cut, after_left, after_mark, after_pick, after_right, is_undo};
use rulebook::stroke::Stroke;
use segments::segment::Segment;

// The number in a field.
fn number(field: &[u8]) -> Result<i32, Refusal>
    ensures { FieldIs field.now result }
{
    read_number(field).ok_or(Refusal::BadNumber)
}

// The mark of three numbers.
fn mark(ink: i32, x: i32, y: i32) -> Result<Mark, Refusal>
    ensures { MarkMade ink x y result }
{
    Ink::new(ink, Point::new(x, y)?)
}

// The cut of five numbers. The ink is tried on nothing first: that it is out of range comes before that the ends are
// equal.
fn cut(ink: i32, x1: i32, y1: i32, x2: i32, y2: i32) -> Result<Cut, Refusal>
    ensures { CutMade ink x1 y1 x2 y2 result }
{
    Ink::new(ink, ())?;
    Ink::new(ink, Segment::new(x1, y1, x2, y2)?)
}

// What follows `mark `.
fn read_mark(rest: &[u8]) -> Result<Mark, Refusal>
    ensures { MarkFields rest.now result }
{
    let (ink, x, y) = three_fields(rest).ok_or(Refusal::BadLine)?;
    mark(number(ink)?, number(x)?, number(y)?)
}

// What follows `cut `.
fn read_cut(rest: &[u8]) -> Result<Cut, Refusal>
    ensures { CutFields rest.now result }
{
    let (ink, x1, y1, x2, y2) = five_fields(rest).ok_or(Refusal::BadLine)?;
    cut(
        number(ink)?,
        number(x1)?,
        number(y1)?,
        number(x2)?,
        number(y2)?,
    )
}

// A line of the start.
pub fn read_stroke(line: &[u8]) -> Result<Stroke<Mark, Cut>, Refusal>
    ensures { StrokeIs line.now result }
{
    if let Some(rest) = after_mark(line) {
        Ok(Stroke::Mark(read_mark(rest)?))
    } else if let Some(rest) = after_cut(line) {
        Ok(Stroke::Cut(read_cut(rest)?))
    } else {
        Err(Refusal::BadLine)
    }
}

// A line of a rule.
pub fn read_side(line: &[u8]) -> Result<SideLine, Refusal>
    ensures { SideIs line.now result }
{
    if let Some(rest) = after_left(line) {
        read_stroke(rest).map(SideLine::Left)
    } else if let Some(rest) = after_right(line) {
        read_stroke(rest).map(SideLine::Right)
    } else {
        Err(Refusal::BadLine)
    }
}

// What follows `pick `.
fn read_pick(rest: &[u8]) -> Result<Pick, Refusal>
    ensures { PickFields rest.now result }
{
    let (rule, place) = two_fields(rest).ok_or(Refusal::BadLine)?;
    Ok(Pick {
        rule: number(rule)?,
        place: number(place)?,
    })
}

// A line of the steps.
pub fn read_step(line: &[u8]) -> Result<StepLine, Refusal>
    ensures { StepIs line.now result }
{
    if is_undo(line) {
        return Ok(StepLine::Undo);
    }
    let rest = after_pick(line).ok_or(Refusal::BadLine)?;
    read_pick(rest).map(StepLine::Pick)
}
