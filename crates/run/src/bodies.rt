// The bodies of a file, carried out line by line.
ghost use Rattle.std.specs.Prelude.{◌≡◌};
ghost use Rattle.run.specs.declared.bodies.Stop.TheVariants.{Refused as Refuses};

use crate::listing::Listing;
use commands::{Cut, Mark, SideLine, StepLine};
use lattice::refusal::Refusal;
use notation::refused::Refused;
use parsing::strokes::{read_side, read_step, read_stroke};
use reading::line::Line;
use reading::reader::Reader;
use rulebook::rulebook::Rulebook;
use rulebook::stroke::Stroke;
use rulebook::table::Stretch;
use sheets::sheet::Sheet;

// Why a run ends before its output: it is refused, or it comes to a pick. The crate `drawing` carries picks out, but `run`
// does not rest on it yet.
#[derive(Clone, Copy, PartialEq, Eq, Debug)]
pub enum Stop {
    Refused(Refused),
    PickAhead(u32),
}

impl From<Refused> for Stop {
    ghost from_gives = { λ refused stop. stop ≡ Refuses refused };

    fn from(refused: Refused) -> Stop {
        Stop::Refused(refused)
    }
}

// A refusal in a line.
pub fn refused_at(refusal: Refusal, line: u32) -> Stop
    ensures { result ≡ Refuses (record { refusal = refusal; line = line }) }
{
    Stop::from(Refused { refusal, line })
}

// The bytes of a line, which a byte 10 has to end.
fn ended<'a>(line: Line<'a>) -> Result<&'a [u8], Refusal> {
    line.whole().ok_or(Refusal::BadLine)
}

// Carries out each line of a body before the next is read. A refusal tells its line.
fn carry_lines<F: FnMut(Line) -> Result<(), Refusal>>(
    mut reader: Reader,
    mut carry: F,
) -> Result<(), Stop>
    requires { F.IsAlwaysCallable carry }
{
    while let Some(line) = reader.next_line() {
        carry(line).map_err(|refusal| refused_at(refusal, line.number))?;
    }
    Ok(())
}

// One line of a rule.
fn carry_side(line: Line, book: &mut Rulebook<Mark, Cut>) -> Result<(), Refusal> {
    match read_side(ended(line)?)? {
        SideLine::Left(stroke) => book.left(stroke),
        SideLine::Right(stroke) => book.right(stroke),
    }
}

// All rules, in order.
pub fn carry_rules(listing: &Listing, book: &mut Rulebook<Mark, Cut>) -> Result<(), Stop> {
    let mut from = listing.rules_from();
    for &length in listing.contents.rules() {
        let to = from.saturating_add(length as usize);
        book.rule().map_err(|refusal| refused_at(refusal, 0))?;
        carry_lines(Reader::part(listing.file, from, to), |line| {
            carry_side(line, book)
        })?;
        from = to;
    }
    Ok(())
}

// One line of the start. It and what calls it take the two sheets one by one, so that a caller who was lent them can pass them on.
fn carry_stroke(line: Line, marks: &mut Sheet<Mark>, cuts: &mut Sheet<Cut>) -> Result<(), Refusal> {
    match read_stroke(ended(line)?)? {
        Stroke::Mark(e) => marks.add(e),
        Stroke::Cut(e) => cuts.add(e),
    }
}

// The start.
pub fn carry_start(
    listing: &Listing,
    marks: &mut Sheet<Mark>,
    cuts: &mut Sheet<Cut>,
) -> Result<(), Stop> {
    let reader = Reader::part(listing.file, listing.bodies, listing.rules_from());
    carry_lines(reader, |line| carry_stroke(line, marks, cuts))
}

// Whether a stretch has no slot.
fn is_empty(stretch: Stretch) -> bool {
    stretch.from >= stretch.to
}

// One line of the steps.
fn carry_step(line: Line, book: &Rulebook<Mark, Cut>) -> Result<(), Refusal> {
    match read_step(ended(line)?)? {
        StepLine::Undo => Err(Refusal::NoStep),
        StepLine::Pick(pick) => {
            let left = book.find(pick.rule).ok_or(Refusal::NoSuchRule)?.left;
            if is_empty(left.marks) && is_empty(left.cuts) {
                Err(Refusal::EmptyLeft)
            } else {
                Ok(())
            }
        }
    }
}

// The steps, up to the first pick that would have to be carried out.
pub fn carry_steps(listing: &Listing, book: &Rulebook<Mark, Cut>) -> Result<(), Stop> {
    let mut reader = Reader::part(listing.file, listing.steps_from(), listing.file.len());
    let Some(line) = reader.next_line() else {
        return Ok(());
    };
    carry_step(line, book).map_err(|refusal| refused_at(refusal, line.number))?;
    Err(Stop::PickAhead(line.number))
}
