// The tables that a run works in, all provided by its caller.
use commands::{Cut, Mark};
use lattice::refusal::Refusal;
use rulebook::rulebook::{Rulebook, SideTables};
use sheets::sheet::Sheet;

#[derive(Drop)]
pub struct Tables<'a> {
    pub left_marks: &'a mut [Mark],
    pub left_cuts: &'a mut [Cut],
    pub right_marks: &'a mut [Mark],
    pub right_cuts: &'a mut [Cut],
    pub marks: &'a mut [Mark],
    pub cuts: &'a mut [Cut],
}

// The two sheets that a run draws on.
#[derive(Drop)]
pub struct BothSheets<'a> {
    pub marks: Sheet<'a, Mark>,
    pub cuts: Sheet<'a, Cut>,
}

impl<'a> Tables<'a> {
    // A rulebook without a rule and sheets without an element, in the tables.
    pub(crate) fn open(self) -> Result<(Rulebook<'a, Mark, Cut>, BothSheets<'a>), Refusal> {
        let Tables {
            left_marks,
            left_cuts,
            right_marks,
            right_cuts,
            marks,
            cuts,
        } = self;
        let left = SideTables::new(left_marks, left_cuts)?;
        let right = SideTables::new(right_marks, right_cuts)?;
        let marks = Sheet::new(marks)?;
        let cuts = Sheet::new(cuts)?;
        Ok((Rulebook::new(left, right), BothSheets { marks, cuts }))
    }
}
