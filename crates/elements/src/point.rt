// Points, valid by type: both coordinates lie in the field.
ghost use Rattle.std.specs.Prelude.{◌≡◌, true};
ghost use Rattle.lattice.specs.Field.{ranged};

pub mod kind;
pub mod make;

#[derive(Clone, Copy, PartialEq, Eq, Debug)]
pub struct Point {
    x: i32,
    y: i32,
    ghost wide: { ranged x ≡ true },
    ghost tall: { ranged y ≡ true },
}

// A point of the lattice, in the field or not: an atom of points.
#[derive(Clone, Copy, PartialEq, Eq, Debug)]
pub struct LatticePoint {
    pub x: i32,
    pub y: i32,
}
