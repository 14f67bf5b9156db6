// Where turns take unit edges, and what lies in the field.
ghost use Rattle.std.specs.Prelude.{◌≡◌, ◌≤◌, true, pos, unsigned_abs};
ghost use Rattle.lattice.specs.Field.{ranged};
ghost use Rattle.lattice.specs.Turns.{index as Index};
ghost use Rattle.segments.specs.Directions.{direction as Direction};
ghost use Rattle.segments.specs.Edges.{ends_lie as EndsLie, edge_field as EdgeField, edge_image as EdgeImage, oriented as Oriented};
ghost use Rattle.segments.specs.Segments.{segment as TestedSegment};

use crate::arithmetic::{both_inside, direction, edge, forward, onward, sum};
use crate::segment::{Edge, Segment};
use lattice::field::in_field;
use lattice::turn::Turn;

// The segment of these numbers, if its ends lie in the field.
pub(crate) fn fitted(x: i64, y: i64, dx: i64, dy: i64, edges: i64) -> Option<Segment>
    requires way { Direction dx dy ≡ true }
    requires wide { unsigned_abs dx ≤ 4000 }
    requires tall { unsigned_abs dy ≤ 4000 }
    requires long { unsigned_abs edges ≤ 10000 }
    ensures { result ≡ TestedSegment x y dx dy edges }
{
    if edges <= 0 {
        return None;
    }
    if !in_field(x) {
        return None;
    }
    if !in_field(y) {
        return None;
    }
    if !in_field(onward(x, dx, edges)) {
        return None;
    }
    if !in_field(onward(y, dy, edges)) {
        return None;
    }
    Some(Segment {
        x: x as i32,
        y: y as i32,
        dx: dx as i32,
        dy: dy as i32,
        edges: edges as i32,
    })
}

// The edge with an end and the way to its other end.
fn oriented(x: i64, y: i64, dx: i64, dy: i64) -> Edge
    requires x { unsigned_abs x ≤ 4000 }
    requires y { unsigned_abs y ≤ 4000 }
    requires dx { unsigned_abs dx ≤ 4000 }
    requires dy { unsigned_abs dy ≤ 4000 }
    ensures { result ≡ Oriented x y dx dy }
{
    if forward(dx, dy) {
        edge(x, y, dx, dy)
    } else {
        edge(x + dx, y + dy, -dx, -dy)
    }
}

impl Edge {
    // Whether both ends lie in the field.
    pub(crate) fn ends_lie(self) -> bool
        ensures { result ≡ EndsLie self }
    {
        if !both_inside(i64::from(self.x), i64::from(self.y)) {
            return false;
        }
        both_inside(sum(self.x, self.dx), sum(self.y, self.dy))
    }

    // Whether this is a unit edge of the field.
    pub(crate) fn lies(self) -> bool
        ensures { result ≡ EdgeField self }
    {
        self.ends_lie() && direction(self.dx, self.dy)
    }

    // The edge, turned.
    pub(crate) fn turned(self, turn: Turn) -> Edge
        requires { EndsLie self ≡ true }
        ensures value { result ≡ EdgeImage (Index turn) (pos 0) (pos 0) self }
        ensures left { ranged result.x ≡ true }
        ensures low { ranged result.y ≡ true }
    {
        let (x, y) = turn.turned(self.x, self.y);
        let (dx, dy) = turn.turned(self.dx, self.dy);
        oriented(x, y, dx, dy)
    }
}
