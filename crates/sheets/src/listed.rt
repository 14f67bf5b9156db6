// At most two elements, those of two that there are: how many they are, and how they stand in slots.
ghost use Rattle.std.specs.Prelude.{◌≡◌, ◌≤◌, ◌++◌, length, drop};
ghost use Rattle.sheets.specs.Finding.{listed as Listed};

// How many of the two there are.
pub fn how_many<K: Copy>(left: Option<K>, right: Option<K>) -> usize
    ensures { result ≡ length (Listed left right) }
{
    usize::from(left.is_some()) + usize::from(right.is_some())
}

// Those that there are, written to the first slots.
pub fn write<K: Copy>(slots: &mut [K], left: Option<K>, right: Option<K>)
    requires { length (Listed left right) ≤ length slots.old }
    ensures { slots.new ≡ Listed left right ++ drop (length (Listed left right)) slots.old }
{
    match (left, right) {
        (Some(one), Some(two)) => {
            slots[0] = one;
            slots[1] = two;
        }
        (Some(one), None) | (None, Some(one)) => slots[0] = one,
        (None, None) => {}
    }
}
