// Points as a kind.
ghost use Rattle.elements.specs.Points.{point_model as PointModel};
ghost use Rattle.elements.specs.PointRules.{point_rules};

use crate::point::{LatticePoint, Point};
use kinds::kind::Kind;
use lattice::field::shift_between;
use lattice::placement::Placement;
use lattice::turn::Turn;
use std::cmp::Ordering;

impl Kind for Point {
    type Carrier = (i32, i32);

    type Atom = LatticePoint;

    ghost model = { PointModel };

    ghost rules = { point_rules };

    fn carrier(&self) -> (i32, i32) {
        (self.x, self.y)
    }

    fn compare(&self, other: &Point) -> Ordering {
        self.carrier().cmp(&other.carrier())
    }

    fn start(&self) -> i32 {
        0
    }

    fn end(&self) -> i32 {
        1
    }

    fn join(self, other: Point) -> Option<Point> {
        (self == other).then_some(self)
    }

    fn part(self, from: i32, to: i32) -> Option<Point> {
        (from == 0 && to == 1).then_some(self)
    }

    fn atom(&self, at: i32) -> Option<LatticePoint> {
        if at == 0 {
            Some(LatticePoint {
                x: self.x,
                y: self.y,
            })
        } else {
            None
        }
    }

    fn place(self, p: Placement) -> Option<Point> {
        let (x, y) = p.moved(self.x, self.y);
        Point::at(x, y)
    }

    fn shifts(turn: Turn, from: LatticePoint, to: LatticePoint) -> Option<(i32, i32)> {
        let (x, y) = turn.turned(from.x, from.y);
        let across = shift_between(x, to.x)?;
        let up = shift_between(y, to.y)?;
        Some((across, up))
    }
}
