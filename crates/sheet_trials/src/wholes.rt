// Sums and differences with a whole sheet.
use crate::{draw, ends};
use segments::segment::Segment;
use sheet_sums::whole::{add_all, remove_all};
use sheets::sheet::Sheet;
use std::test::Fail;

// The end fits two slots, though the cut that comes first in order needs a third one.
#[test]
fn a_sum_needs_no_more_slots_than_its_end(rt: HostRuntime) -> Result<(), Fail> {
    let mut slots = [Segment::new(0, 0, 1, 0)?; 2];
    let mut sheet = Sheet::new(&mut slots)?;
    draw(&mut sheet, 4, 0, 5, 0)?;
    draw(&mut sheet, 8, 0, 9, 0)?;
    let mut more = [Segment::new(0, 0, 1, 0)?; 2];
    let mut other = Sheet::new(&mut more)?;
    draw(&mut other, 0, 0, 1, 0)?;
    draw(&mut other, 5, 0, 8, 0)?;
    add_all(&mut sheet, &other)?;
    assert_eq!(rt; ends(&sheet, 0), Some((0, 0, 1, 0)));
    assert_eq!(rt; ends(&sheet, 1), Some((4, 0, 9, 0)));
    assert!(rt; other.is_part_of(&sheet));
    Ok(())
}

#[test]
fn a_sum_that_does_not_fit_changes_nothing(rt: HostRuntime) -> Result<(), Fail> {
    let mut slots = [Segment::new(0, 0, 1, 0)?; 2];
    let mut sheet = Sheet::new(&mut slots)?;
    draw(&mut sheet, 4, 0, 5, 0)?;
    let mut more = [Segment::new(0, 0, 1, 0)?; 2];
    let mut other = Sheet::new(&mut more)?;
    draw(&mut other, 0, 0, 1, 0)?;
    draw(&mut other, 8, 0, 9, 0)?;
    assert!(rt; add_all(&mut sheet, &other).is_err());
    assert_eq!(rt; ends(&sheet, 0), Some((4, 0, 5, 0)));
    assert_eq!(rt; ends(&sheet, 1), None);
    Ok(())
}

// The end fits two slots, though the split that comes first in order needs a third one.
#[test]
fn a_difference_needs_no_more_slots_than_its_end(rt: HostRuntime) -> Result<(), Fail> {
    let mut slots = [Segment::new(0, 0, 1, 0)?; 2];
    let mut sheet = Sheet::new(&mut slots)?;
    draw(&mut sheet, 0, 0, 9, 0)?;
    draw(&mut sheet, 0, 1, 1, 1)?;
    let mut more = [Segment::new(0, 0, 1, 0)?; 2];
    let mut other = Sheet::new(&mut more)?;
    draw(&mut other, 2, 0, 3, 0)?;
    draw(&mut other, 0, 1, 4, 1)?;
    remove_all(&mut sheet, &other)?;
    assert_eq!(rt; ends(&sheet, 0), Some((0, 0, 2, 0)));
    assert_eq!(rt; ends(&sheet, 1), Some((3, 0, 9, 0)));
    Ok(())
}

#[test]
fn difference_then_sum_is_the_sum(rt: HostRuntime) -> Result<(), Fail> {
    let mut slots = [Segment::new(0, 0, 1, 0)?; 4];
    let mut sheet = Sheet::new(&mut slots)?;
    draw(&mut sheet, 0, 0, 9, 0)?;
    let mut more = [Segment::new(0, 0, 1, 0)?; 4];
    let mut other = Sheet::new(&mut more)?;
    draw(&mut other, 2, 0, 3, 0)?;
    draw(&mut other, 5, 0, 11, 0)?;
    let mut third = [Segment::new(0, 0, 1, 0)?; 4];
    let mut sum = Sheet::new(&mut third)?;
    sum.copy_from(&sheet)?;
    add_all(&mut sum, &other)?;
    remove_all(&mut sheet, &other)?;
    assert!(rt; !sheet.same(&sum));
    add_all(&mut sheet, &other)?;
    assert!(rt; sheet.same(&sum));
    Ok(())
}
