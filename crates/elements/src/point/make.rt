// Points from coordinates, and back.
ghost use Rattle.std.specs.Prelude.{◌≡◌};
ghost use Rattle.elements.specs.Points.{point as TestedPoint, PointMade};

use crate::point::Point;
use lattice::field::in_field;
use lattice::refusal::Refusal;

impl Point {
    // The point with these coordinates; refused if one of them lies outside the field.
    pub fn new(x: i32, y: i32) -> Result<Point, Refusal>
        ensures { PointMade x y result }
    {
        Point::at(i64::from(x), i64::from(y)).ok_or(Refusal::OutOfRange)
    }

    // The point with these coordinates, if they lie in the field.
    pub fn at(x: i64, y: i64) -> Option<Point>
        ensures { result ≡ TestedPoint x y }
    {
        if in_field(x) && in_field(y) {
            Some(Point {
                x: x as i32,
                y: y as i32,
            })
        } else {
            None
        }
    }

    pub fn x(&self) -> i32
        ensures { result ≡ self.now.x }
    {
        self.x
    }

    pub fn y(&self) -> i32
        ensures { result ≡ self.now.y }
    {
        self.y
    }
}
