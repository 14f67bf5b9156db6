// Sums and differences with one cut.
use crate::{covers, draw, ends, rub};
use segments::segment::Segment;
use sheets::sheet::Sheet;
use std::test::Fail;

#[test]
fn cuts_that_touch_are_one(rt: HostRuntime) -> Result<(), Fail> {
    let mut slots = [Segment::new(0, 0, 1, 0)?; 4];
    let mut sheet = Sheet::new(&mut slots)?;
    draw(&mut sheet, 0, 0, 2, 0)?;
    draw(&mut sheet, 2, 0, 5, 0)?;
    assert_eq!(rt; sheet.count(), 1);
    assert_eq!(rt; ends(&sheet, 0), Some((0, 0, 5, 0)));
    assert_eq!(rt; sheet.atoms(), 5);
    Ok(())
}

#[test]
fn rubbing_leaves_both_rests(rt: HostRuntime) -> Result<(), Fail> {
    let mut slots = [Segment::new(0, 0, 1, 0)?; 4];
    let mut sheet = Sheet::new(&mut slots)?;
    draw(&mut sheet, 0, 0, 5, 0)?;
    rub(&mut sheet, 1, 0, 2, 0)?;
    assert_eq!(rt; ends(&sheet, 0), Some((0, 0, 1, 0)));
    assert_eq!(rt; ends(&sheet, 1), Some((2, 0, 5, 0)));
    assert_eq!(rt; ends(&sheet, 2), None);
    assert_eq!(rt; sheet.atoms(), 4);
    Ok(())
}

#[test]
fn rubbing_past_an_end_leaves_one_rest(rt: HostRuntime) -> Result<(), Fail> {
    let mut slots = [Segment::new(0, 0, 1, 0)?; 2];
    let mut sheet = Sheet::new(&mut slots)?;
    draw(&mut sheet, 0, 0, 5, 5)?;
    rub(&mut sheet, 3, 3, 9, 9)?;
    assert_eq!(rt; ends(&sheet, 0), Some((0, 0, 3, 3)));
    assert_eq!(rt; ends(&sheet, 1), None);
    Ok(())
}

#[test]
fn one_cut_joins_several_neighbours(rt: HostRuntime) -> Result<(), Fail> {
    let mut slots = [Segment::new(0, 0, 1, 0)?; 3];
    let mut sheet = Sheet::new(&mut slots)?;
    draw(&mut sheet, 0, 8, 0, 9)?;
    draw(&mut sheet, 0, 0, 0, 2)?;
    draw(&mut sheet, 0, 4, 0, 5)?;
    assert_eq!(rt; sheet.count(), 3);
    draw(&mut sheet, 0, 2, 0, 8)?;
    assert_eq!(rt; ends(&sheet, 0), Some((0, 0, 0, 9)));
    assert_eq!(rt; ends(&sheet, 1), None);
    Ok(())
}

#[test]
fn lines_that_cross_stay_apart(rt: HostRuntime) -> Result<(), Fail> {
    let mut slots = [Segment::new(0, 0, 1, 0)?; 4];
    let mut sheet = Sheet::new(&mut slots)?;
    draw(&mut sheet, 0, 0, 4, 4)?;
    draw(&mut sheet, 0, 4, 4, 0)?;
    draw(&mut sheet, 0, 1, 4, 5)?;
    assert_eq!(rt; sheet.count(), 3);
    assert_eq!(rt; sheet.atoms(), 12);
    Ok(())
}

#[test]
fn a_full_sheet_takes_a_cut_that_joins(rt: HostRuntime) -> Result<(), Fail> {
    let mut slots = [Segment::new(0, 0, 1, 0)?; 2];
    let mut sheet = Sheet::new(&mut slots)?;
    draw(&mut sheet, 0, 0, 1, 0)?;
    draw(&mut sheet, 4, 0, 5, 0)?;
    assert_eq!(rt; sheet.free(), 0);
    draw(&mut sheet, 1, 0, 3, 0)?;
    assert_eq!(rt; ends(&sheet, 0), Some((0, 0, 3, 0)));
    draw(&mut sheet, 3, 0, 4, 0)?;
    assert_eq!(rt; ends(&sheet, 0), Some((0, 0, 5, 0)));
    assert_eq!(rt; sheet.free(), 1);
    Ok(())
}

#[test]
fn a_full_sheet_refuses_one_cut_more(rt: HostRuntime) -> Result<(), Fail> {
    let mut slots = [Segment::new(0, 0, 1, 0)?; 2];
    let mut sheet = Sheet::new(&mut slots)?;
    draw(&mut sheet, 0, 0, 1, 0)?;
    draw(&mut sheet, 4, 0, 9, 0)?;
    assert!(rt; draw(&mut sheet, 2, 0, 3, 0).is_err());
    assert!(rt; rub(&mut sheet, 6, 0, 7, 0).is_err());
    assert_eq!(rt; ends(&sheet, 0), Some((0, 0, 1, 0)));
    assert_eq!(rt; ends(&sheet, 1), Some((4, 0, 9, 0)));
    Ok(())
}

#[test]
fn only_what_is_drawn_is_covered(rt: HostRuntime) -> Result<(), Fail> {
    let mut slots = [Segment::new(0, 0, 1, 0)?; 2];
    let mut sheet = Sheet::new(&mut slots)?;
    draw(&mut sheet, 0, 0, 6, 3)?;
    assert_eq!(rt; sheet.atoms(), 3);
    assert!(rt; covers(&sheet, 2, 1, 4, 2)?);
    assert!(rt; !covers(&sheet, 4, 2, 8, 4)?);
    assert!(rt; !covers(&sheet, 0, 0, 2, 0)?);
    Ok(())
}
