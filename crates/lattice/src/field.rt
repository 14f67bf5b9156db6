// The field, and the shifts that placements have.
ghost use Rattle.std.specs.Prelude.{◌≡◌, true, false, ◌&&◌, ◌-ℤ◌, MatchOption};
ghost use Rattle.lattice.specs.Field.{ranged, shifting};

// Whether a coordinate lies in the field.
pub fn in_field(z: i64) -> bool
    ensures { result ≡ ranged z }
{
    (-2000..=2000).contains(&z)
}

// Whether a placement may shift so far. It and the field have one line each, of other types and other bounds.
pub fn may_shift(z: i32) -> bool
    ensures { result ≡ shifting z }
{
    (-4000..=4000).contains(&z)
}

// The shift from one coordinate of the field to another, if both lie in it.
pub fn shift_between(from: i64, to: i32) -> Option<i32>
    ensures { MatchOption result ((ranged from && ranged to) ≡ false) (λ u. ((ranged from && ranged to) ≡ true) × (u ≡ to -ℤ from)) }
{
    let to = i64::from(to);
    if in_field(from) && in_field(to) {
        Some((to - from) as i32)
    } else {
        None
    }
}
