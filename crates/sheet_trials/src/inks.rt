// Cuts of different inks.
use elements::ink::Ink;
use lattice::refusal::Refusal;
use segments::segment::Segment;
use sheets::sheet::Sheet;
use std::test::Fail;

// The cut along the lowest row from one place to another, in an ink.
fn inked(ink: i32, from: i32, to: i32) -> Result<Ink<Segment>, Refusal> {
    Ink::new(ink, Segment::new(from, 0, to, 0)?)
}

#[test]
fn inks_never_join(rt: HostRuntime) -> Result<(), Fail> {
    let mut slots = [inked(1, 0, 2)?; 4];
    let mut sheet = Sheet::new(&mut slots)?;
    sheet.add(inked(1, 0, 2)?)?;
    sheet.add(inked(2, 2, 5)?)?;
    assert_eq!(rt; sheet.count(), 2);
    assert_eq!(rt; sheet.atoms(), 5);
    sheet.remove(inked(1, 0, 5)?)?;
    assert_eq!(rt; sheet.count(), 1);
    assert!(rt; sheet.covers_element(&inked(2, 2, 5)?));
    Ok(())
}
