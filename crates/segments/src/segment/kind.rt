// Segments as a kind.
ghost use Rattle.segments.specs.Segments.{segment_model as SegmentModel};
ghost use Rattle.segments.specs.SegmentRules.{segment_rules};

use crate::arithmetic::forward;
use crate::segment::images::fitted;
use crate::segment::{Edge, Segment};
use kinds::kind::Kind;
use lattice::placement::Placement;
use lattice::turn::Turn;
use std::cmp::Ordering;

impl Kind for Segment {
    type Carrier = (i32, i32, i32);

    type Atom = Edge;

    ghost model = { SegmentModel };

    ghost rules = { segment_rules };

    fn carrier(&self) -> (i32, i32, i32) {
        (self.dx, self.dy, self.constant())
    }

    fn compare(&self, other: &Segment) -> Ordering {
        self.carrier().cmp(&other.carrier())
    }

    fn start(&self) -> i32 {
        self.begins()
    }

    fn end(&self) -> i32 {
        self.ends()
    }

    fn join(self, other: Segment) -> Option<Segment> {
        if !self.touches(&other) {
            return None;
        }
        let end = self.ends().max(other.ends());
        if other.begins() < self.begins() {
            Some(other.reaching(end))
        } else {
            Some(self.reaching(end))
        }
    }

    fn part(self, from: i32, to: i32) -> Option<Segment> {
        if !self.has_stretch(from, to) {
            return None;
        }
        let edge = self.nth(self.offset(from));
        Some(Segment {
            x: edge.x,
            y: edge.y,
            dx: edge.dx,
            dy: edge.dy,
            edges: to - from,
        })
    }

    fn atom(&self, at: i32) -> Option<Edge> {
        if at < self.begins() {
            return None;
        }
        if self.ends() <= at {
            return None;
        }
        Some(self.nth(self.offset(at)))
    }

    fn place(self, p: Placement) -> Option<Segment> {
        let (dx, dy) = p.turn().turned(self.dx, self.dy);
        let edges = i64::from(self.edges);
        if forward(dx, dy) {
            let (x, y) = p.moved(self.x, self.y);
            fitted(x, y, dx, dy, edges)
        } else {
            let (upper_x, upper_y) = self.upper();
            let (x, y) = p.moved(upper_x, upper_y);
            fitted(x, y, -dx, -dy, edges)
        }
    }

    fn shifts(turn: Turn, from: Edge, to: Edge) -> Option<(i32, i32)> {
        if !from.ends_lie() {
            return None;
        }
        if !forward(i64::from(from.dx), i64::from(from.dy)) {
            return None;
        }
        let image = from.turned(turn);
        if image.dx != to.dx {
            return None;
        }
        if image.dy != to.dy {
            return None;
        }
        if !to.lies() {
            return None;
        }
        Some((to.x - image.x, to.y - image.y))
    }
}
