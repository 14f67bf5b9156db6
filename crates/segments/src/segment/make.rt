// Segments from their ends, and back.
ghost use Rattle.std.specs.Prelude.{◌≡◌, true, ◌-ℤ◌};
ghost use Rattle.lattice.specs.Field.{ranged};
ghost use Rattle.segments.specs.Directions.{forward as Forward};
ghost use Rattle.segments.specs.Segments.{SegmentMade, Spans, upper_x as UpperX, upper_y as UpperY};

use crate::arithmetic::{advanced, edges_between, forward, gap, shared};
use crate::segment::Segment;
use elements::point::Point;
use lattice::refusal::Refusal;

// Whether the way from one end to the other goes to the right, or straight up.
fn goes_forward(from: Point, to: Point) -> bool
    ensures { result ≡ Forward (to.x -ℤ from.x) (to.y -ℤ from.y) }
{
    forward(
        i64::from(to.x()) - i64::from(from.x()),
        i64::from(to.y()) - i64::from(from.y()),
    )
}

// The segment from its lower end to its upper.
fn spanned(from: Point, to: Point) -> Segment
    requires { Forward (to.x -ℤ from.x) (to.y -ℤ from.y) ≡ true }
    ensures { Spans from.x from.y to.x to.y result }
{
    let w = gap(to.x(), from.x());
    let h = gap(to.y(), from.y());
    let n = edges_between(w, h);
    let dx = shared(w, n);
    let dy = shared(h, n);
    Segment {
        x: from.x(),
        y: from.y(),
        dx,
        dy,
        edges: n as i32,
    }
}

impl Segment {
    // The segment between two ends, in either order; refused if a coordinate lies outside the field, or if the ends
    // are equal.
    pub fn new(x1: i32, y1: i32, x2: i32, y2: i32) -> Result<Segment, Refusal>
        ensures { SegmentMade x1 y1 x2 y2 result }
    {
        let one = Point::new(x1, y1)?;
        let other = Point::new(x2, y2)?;
        if one == other {
            return Err(Refusal::EqualEnds);
        }
        if goes_forward(one, other) {
            Ok(spanned(one, other))
        } else {
            Ok(spanned(other, one))
        }
    }

    // The lower end: across, and up.
    pub fn lower(&self) -> (i32, i32)
        ensures across { result.0 ≡ self.now.x }
        ensures up { result.1 ≡ self.now.y }
    {
        (self.x, self.y)
    }

    // The upper end: across, and up.
    pub fn upper(&self) -> (i32, i32)
        ensures across { result.0 ≡ UpperX self.now }
        ensures up { result.1 ≡ UpperY self.now }
    {
        (
            advanced(self.x, self.dx, self.edges),
            advanced(self.y, self.dy, self.edges),
        )
    }

    // How many unit edges the segment has.
    pub fn edges(&self) -> i32
        ensures { result ≡ self.now.edges }
    {
        self.edges
    }
}
