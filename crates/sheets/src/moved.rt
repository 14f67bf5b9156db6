// Elements that move to another place in the slots.
ghost use Rattle.std.specs.Prelude.{◌≡◌, ◌+◌, ◌-◌, ◌≤◌, length, drop};
ghost use lib.Seq.{paste};

// Those from one place up to another move to a third. Where they stand there already nothing is written, so a change that
// moves no element costs no more than it takes to find its place.
pub fn move_to<K: Copy>(slots: &mut [K], from: usize, to: usize, dest: usize)
    requires low { from ≤ to }
    requires high { to ≤ length slots.old }
    requires fits { dest + (to - from) ≤ length slots.old }
    ensures { slots.new ≡ paste slots.old dest (drop from slots.old) (to - from) }
{
    if dest != from {
        slots.copy_within(from..to, dest);
    }
}
