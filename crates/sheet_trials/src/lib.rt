// What sheets do with cuts, case by case.
#![tactic(auto)]

use lattice::refusal::Refusal;
use segments::segment::Segment;
use sheets::sheet::Sheet;

#[cfg(test)]
mod inks;
#[cfg(test)]
mod singles;
#[cfg(test)]
mod wholes;

// Draws the cut from (x, y) to (u, v).
pub fn draw(sheet: &mut Sheet<Segment>, x: i32, y: i32, u: i32, v: i32) -> Result<(), Refusal> {
    sheet.add(Segment::new(x, y, u, v)?)
}

// Rubs it.
pub fn rub(sheet: &mut Sheet<Segment>, x: i32, y: i32, u: i32, v: i32) -> Result<(), Refusal> {
    sheet.remove(Segment::new(x, y, u, v)?)
}

// Whether it is covered.
pub fn covers(sheet: &Sheet<Segment>, x: i32, y: i32, u: i32, v: i32) -> Result<bool, Refusal> {
    Ok(sheet.covers_element(&Segment::new(x, y, u, v)?))
}

// The ends of the sheet's cut at a place: lower x, lower y, upper x, upper y.
pub fn ends(sheet: &Sheet<Segment>, at: usize) -> Option<(i32, i32, i32, i32)> {
    let cut = sheet.elements().get(at)?;
    let (x, y) = cut.lower();
    let (u, v) = cut.upper();
    Some((x, y, u, v))
}
