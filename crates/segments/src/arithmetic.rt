// Arithmetic of coordinates, each step on its own. The numbers are plain, and each step says how large they may be: a struct
// of an end and a way would be made for one call and taken apart in it.
ghost use Rattle.std.specs.Prelude.{◌≡◌, ◌<◌, ◌≤◌, true, ◌&&◌, pos, ◌+ℤ◌, ◌-ℤ◌, ◌*ℤ◌, unsigned_abs};
ghost use Rattle.std.specs.Int.{◌∣◌};
ghost use Rattle.lattice.specs.Field.{ranged};
ghost use Rattle.numbers.specs.Gcd.{gcd as Gcd};
ghost use Rattle.segments.specs.Directions.{forward as Forward, direction as Direction};
ghost use Rattle.segments.specs.Edges.{edge as EdgeOf, position as Position};

use crate::segment::Edge;
use lattice::field::in_field;
use numbers::gcd;

// Whether a point lies in the field.
pub fn both_inside(x: i64, y: i64) -> bool
    ensures { result ≡ (ranged x && ranged y) }
{
    in_field(x) && in_field(y)
}

pub fn sum(a: i32, b: i32) -> i64
    ensures { result ≡ a +ℤ b }
{
    i64::from(a) + i64::from(b)
}

// Whether the way goes to the right, or straight up.
pub fn forward(dx: i64, dy: i64) -> bool
    ensures { result ≡ Forward dx dy }
{
    (0, 0) < (dx, dy)
}

// Whether the way is that of a unit edge.
pub fn direction(dx: i32, dy: i32) -> bool
    ensures { result ≡ Direction dx dy }
{
    if !forward(i64::from(dx), i64::from(dy)) {
        return false;
    }
    gcd(dx.unsigned_abs(), dy.unsigned_abs()) == 1
}

// The position of a unit edge on its line.
pub fn position(x: i32, y: i32, dx: i32) -> i32
    ensures { result ≡ Position x y dx }
{
    if 0 < dx { x.div_euclid(dx) } else { y }
}

// A difference of two coordinates.
pub fn gap(to: i32, from: i32) -> i32
    requires to { ranged to ≡ true }
    requires from { ranged from ≡ true }
    ensures value { result ≡ to -ℤ from }
    ensures size { unsigned_abs result ≤ 4000 }
{
    to - from
}

// How many unit edges go so far across and up.
pub fn edges_between(w: i32, h: i32) -> u32
    requires up { Forward w h ≡ true }
    requires wide { unsigned_abs w ≤ 4000 }
    requires tall { unsigned_abs h ≤ 4000 }
    ensures value { result ≡ Gcd (unsigned_abs w) (unsigned_abs h) }
    ensures some { 0 < result }
    ensures small { result ≤ 4000 }
    ensures across { result ∣ unsigned_abs w }
    ensures upward { result ∣ unsigned_abs h }
{
    gcd(w.unsigned_abs(), h.unsigned_abs())
}

// A number that n divides, divided.
pub fn shared(z: i32, n: u32) -> i32
    requires some { 0 < n }
    requires small { n ≤ 4000 }
    requires divides { n ∣ unsigned_abs z }
    ensures { pos n *ℤ result ≡ z }
{
    z / n as i32
}

// A coordinate k steps on, in the field. It stays as small as it is stored; beyond the field `onward` has the wider type.
pub fn advanced(z: i32, d: i32, k: i32) -> i32
    requires from { ranged z ≡ true }
    requires to { ranged (z +ℤ k *ℤ d) ≡ true }
    ensures { result ≡ z +ℤ k *ℤ d }
{
    z + k * d
}

// A coordinate of the field, n steps on, in the field or not.
pub fn onward(z: i64, d: i64, n: i64) -> i64
    requires from { ranged z ≡ true }
    requires step { unsigned_abs d ≤ 4000 }
    requires steps { unsigned_abs n ≤ 10000 }
    ensures { result ≡ z +ℤ n *ℤ d }
{
    z + n * d
}

// The unit edge of these numbers.
pub fn edge(x: i64, y: i64, dx: i64, dy: i64) -> Edge
    requires x { unsigned_abs x ≤ 10000 }
    requires y { unsigned_abs y ≤ 10000 }
    requires dx { unsigned_abs dx ≤ 10000 }
    requires dy { unsigned_abs dy ≤ 10000 }
    ensures { result ≡ EdgeOf x y dx dy }
{
    Edge {
        x: x as i32,
        y: y as i32,
        dx: dx as i32,
        dy: dy as i32,
    }
}

pub fn product(a: i32, b: i32) -> i32
    requires a { unsigned_abs a ≤ 10000 }
    requires b { unsigned_abs b ≤ 10000 }
    ensures value { result ≡ a *ℤ b }
    ensures size { unsigned_abs result ≤ 100000000 }
{
    a * b
}
