// Points, segments and ink, run.
use elements::ink::Ink;
use elements::point::Point;
use kinds::kind::Kind;
use lattice::placement::Placement;
use lattice::refusal::Refusal;
use lattice::turn::Turn;
use segments::segment::Segment;
use std::test::Fail;

// The edge (-3, -1) to (-1, 0), given from its upper end.
#[test]
fn rounds_down(rt: HostRuntime) -> Result<(), Fail> {
    let e = Segment::new(-1, 0, -3, -1)?;
    let (dx, dy, constant) = e.carrier();
    assert_eq!(rt; dx, 2);
    assert_eq!(rt; dy, 1);
    assert_eq!(rt; constant, 1);
    assert_eq!(rt; e.start(), -2);
    assert_eq!(rt; e.end(), -1);
    let (x, y) = e.lower();
    assert_eq!(rt; x, -3);
    assert_eq!(rt; y, -1);
    let (x, y) = e.upper();
    assert_eq!(rt; x, -1);
    assert_eq!(rt; y, 0);
    Ok(())
}

// A long segment has the direction of its unit edges.
#[test]
fn shortens(rt: HostRuntime) -> Result<(), Fail> {
    let e = Segment::new(0, 0, 6, 4)?;
    assert_eq!(rt; e.edges(), 2);
    let (dx, dy, constant) = e.carrier();
    assert_eq!(rt; dx, 3);
    assert_eq!(rt; dy, 2);
    assert_eq!(rt; constant, 0);
    assert_eq!(rt; e.start(), 0);
    assert_eq!(rt; e.end(), 2);
    Ok(())
}

#[test]
fn refuses(rt: HostRuntime) -> Result<(), Fail> {
    assert_eq!(rt;
        Segment::new(0, 0, 2001, 0).err().map(Refusal::number),
        Some(6)
    );
    assert_eq!(rt;
        Segment::new(5, -2000, 5, -2000).err().map(Refusal::number),
        Some(7)
    );
    assert_eq!(rt; Point::new(0, -2001).err().map(Refusal::number), Some(6));
    let p = Point::new(2000, -2000)?;
    assert_eq!(rt; Ink::new(256, p).err().map(Refusal::number), Some(6));
    Ok(())
}

// Turn 5 takes (x, y) to (-y, -x), and so swaps the ends of this segment.
#[test]
fn places(rt: HostRuntime) -> Result<(), Fail> {
    let e = Segment::new(0, 0, 6, 4)?;
    let turn = Turn::new(5).ok_or("no turn")?;
    let p = Placement::new(turn, 10, 20).ok_or("no placement")?;
    let r = e.place(p).ok_or("outside")?;
    let (x, y) = r.lower();
    assert_eq!(rt; x, 6);
    assert_eq!(rt; y, 14);
    let (x, y) = r.upper();
    assert_eq!(rt; x, 10);
    assert_eq!(rt; y, 20);
    let far = Placement::new(turn, -1997, 0).ok_or("no placement")?;
    assert!(rt; e.place(far).is_none());
    Ok(())
}

// Two stretches of one line that touch are one.
#[test]
fn joins(rt: HostRuntime) -> Result<(), Fail> {
    let d = Segment::new(2, 0, 6, 0)?;
    let e = Segment::new(2, 0, -1, 0)?;
    let j = d.join(e).ok_or("apart")?;
    let (x, _) = j.lower();
    assert_eq!(rt; x, -1);
    let (x, _) = j.upper();
    assert_eq!(rt; x, 6);
    let p = j.part(0, 4).ok_or("no stretch")?;
    let (x, _) = p.lower();
    assert_eq!(rt; x, 0);
    assert_eq!(rt; p.edges(), 4);
    assert!(rt; j.part(4, 4).is_none());
    Ok(())
}

// Ink keeps elements apart, and comes first in the order.
#[test]
fn inks(rt: HostRuntime) -> Result<(), Fail> {
    let p = Point::new(3, 4)?;
    let q = Point::new(2, 4)?;
    let low = Ink::new(1, p)?;
    let high = Ink::new(2, q)?;
    assert!(rt; low.compare(&high).is_lt());
    assert!(rt; p.compare(&q).is_gt());
    assert!(rt; low.join(high).is_none());
    assert!(rt; low.join(low).is_some());
    Ok(())
}

// The shifts that take one unit edge to another.
#[test]
fn shifts(rt: HostRuntime) -> Result<(), Fail> {
    let d = Segment::new(0, 0, 1, 2)?;
    let e = Segment::new(5, 5, 3, 6)?;
    let from = d.atom(d.start()).ok_or("no atom")?;
    let to = e.atom(e.start()).ok_or("no atom")?;
    let turn = Turn::new(1).ok_or("no turn")?;
    let (across, up) = <Segment as Kind>::shifts(turn, from, to).ok_or("no shifts")?;
    assert_eq!(rt; across, 5);
    assert_eq!(rt; up, 5);
    let plain = Turn::new(0).ok_or("no turn")?;
    assert!(rt; <Segment as Kind>::shifts(plain, from, to).is_none());
    Ok(())
}
