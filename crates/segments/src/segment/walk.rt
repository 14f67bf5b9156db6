// Along a segment: its positions, its unit edges, and how far it reaches.
ghost use Rattle.std.specs.Prelude.{◌≡◌, ◌≤◌, true, pos, negsuc, ◌+ℤ◌, ◌-ℤ◌, ◌*ℤ◌, ◌≤ℤ◌, ◌<ℤ◌, Decides, unsigned_abs};
ghost use Rattle.lattice.specs.Field.{ranged};
ghost use Rattle.kinds.specs.Rules.{Touch, Stretch};
ghost use Rattle.segments.specs.Edges.{along as Along, edge_position as PositionOf};
ghost use Rattle.segments.specs.Segments.{first as First, segment_model as SegmentModel};

use crate::arithmetic::{advanced, position, product};
use crate::segment::{Edge, Segment};
use kinds::kind::Kind;

impl Segment {
    // The direction of the unit edges, across.
    pub(crate) fn step_x(&self) -> i32
        ensures value { result ≡ self.now.dx }
        ensures size { unsigned_abs result ≤ 4000 }
    {
        self.dx
    }

    // And up.
    pub(crate) fn step_y(&self) -> i32
        ensures value { result ≡ self.now.dy }
        ensures size { unsigned_abs result ≤ 4000 }
    {
        self.dy
    }

    // The number that all points of the segment's line share.
    pub(crate) fn constant(&self) -> i32
        ensures { result ≡ self.now.dx *ℤ self.now.y -ℤ self.now.dy *ℤ self.now.x }
    {
        product(self.step_x(), self.y) - product(self.step_y(), self.x)
    }

    // The position of the lowest unit edge.
    pub(crate) fn begins(&self) -> i32
        ensures value { result ≡ PositionOf (First self.now) }
        ensures low { negsuc 1999 ≤ℤ result }
        ensures high { result ≤ℤ pos 2000 }
    {
        position(self.x, self.y, self.dx)
    }

    // The position after that of the highest.
    pub(crate) fn ends(&self) -> i32
        ensures value { result ≡ PositionOf (First self.now) +ℤ self.now.edges }
        ensures low { negsuc 1999 ≤ℤ result }
        ensures high { result ≤ℤ pos 2001 }
    {
        self.begins() + self.edges
    }

    // How many unit edges lie before a position.
    pub(crate) fn offset(&self, at: i32) -> i32
        requires low { PositionOf (First self.now) ≤ℤ at }
        requires high { at ≤ℤ (PositionOf (First self.now) +ℤ self.now.edges) }
        ensures value { result ≡ at -ℤ PositionOf (First self.now) }
        ensures low { pos 0 ≤ℤ result }
        ensures high { result ≤ℤ self.now.edges }
        ensures small { result ≤ℤ pos 10000 }
    {
        at - self.begins()
    }

    // The unit edge k edges on from the lowest.
    pub(crate) fn nth(&self, k: i32) -> Edge
        requires low { pos 0 ≤ℤ k }
        requires high { k ≤ℤ self.now.edges }
        ensures { result ≡ Along (First self.now) k }
    {
        Edge {
            x: advanced(self.x, self.dx, k),
            y: advanced(self.y, self.dy, k),
            dx: self.dx,
            dy: self.dy,
        }
    }

    // The segment with the same lower end that ends at another position.
    pub(crate) fn reaching(self, to: i32) -> Segment
        requires some { PositionOf (First self) <ℤ to }
        requires small { to ≤ℤ pos 2001 }
        requires right { ranged (self.x +ℤ (to -ℤ PositionOf (First self)) *ℤ self.dx) ≡ true }
        requires high { ranged (self.y +ℤ (to -ℤ PositionOf (First self)) *ℤ self.dy) ≡ true }
        ensures first { First result ≡ First self }
        ensures end { PositionOf (First result) +ℤ result.edges ≡ to }
    {
        Segment {
            x: self.x,
            y: self.y,
            dx: self.dx,
            dy: self.dy,
            edges: to - self.begins(),
        }
    }

    // Whether the two lie on one line, and overlap or touch.
    pub(crate) fn touches(&self, other: &Segment) -> bool
        ensures { Decides result (Touch SegmentModel self.now other.now) }
    {
        if self.carrier() != other.carrier() {
            return false;
        }
        self.begins() <= other.ends() && other.begins() <= self.ends()
    }

    // Whether from one position up to another is a stretch of the segment.
    pub(crate) fn has_stretch(&self, from: i32, to: i32) -> bool
        ensures { Decides result (Stretch SegmentModel self.now from to) }
    {
        if from < self.begins() {
            return false;
        }
        from < to && to <= self.ends()
    }
}
