// Segments, valid by type: the lower end, the direction from one lattice point of the segment to the next, and how
// many unit edges there are. Both ends lie in the field.
ghost use Rattle.std.specs.Prelude.{◌≡◌, true, pos, ◌+ℤ◌, ◌*ℤ◌, int_lt};
ghost use Rattle.lattice.specs.Field.{ranged};
ghost use Rattle.segments.specs.Directions.{direction};

mod images;
pub mod kind;
pub mod make;
mod walk;

#[derive(Clone, Copy, PartialEq, Eq, Debug)]
pub struct Segment {
    x: i32,
    y: i32,
    dx: i32,
    dy: i32,
    edges: i32,
    ghost proper: { direction dx dy ≡ true },
    ghost some: { int_lt (pos 0) edges ≡ true },
    ghost left: { ranged x ≡ true },
    ghost low: { ranged y ≡ true },
    ghost right: { ranged (x +ℤ edges *ℤ dx) ≡ true },
    ghost high: { ranged (y +ℤ edges *ℤ dy) ≡ true },
}

// A unit edge, in the field or not: its lower end, and the way to its upper end. An atom of segments.
#[derive(Clone, Copy, PartialEq, Eq, Debug)]
pub struct Edge {
    pub x: i32,
    pub y: i32,
    pub dx: i32,
    pub dy: i32,
}
