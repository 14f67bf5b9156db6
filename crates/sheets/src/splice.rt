// What a sum and a difference with one element do to a list: a part of it gives way to at most two elements.
ghost use Rattle.std.specs.Prelude.{◌≡◌, ◌+◌, ◌-◌, ◌^◌, ◌≤◌, min, length};
ghost use Rattle.kinds.specs.Model.{covers};
ghost use Rattle.sheets.specs.Cover.{cover, union, difference as Without};
ghost use Rattle.sheets.specs.Put.{news, Makes};

use crate::finding::{gather, place_of, reach};
use crate::listed::how_many;
use crate::pieces::{left_part, right_part};
use kinds::kind::Kind;

// The elements from one place up to another give way to those of the two that there are. These are options, since an array
// of elements of a kind that is not known is not proved to be smaller than the memory, as a slice of it would have to be.
#[derive(Clone, Copy)]
pub struct Splice<K> {
    pub from: usize,
    pub to: usize,
    pub left: Option<K>,
    pub right: Option<K>,
}

impl<K: Kind> Splice<K> {
    // The sum with `e`: what it touches gives way to what they make together.
    pub fn sum(xs: &[K], e: &K) -> Splice<K>
        ensures { Makes K.model (union (cover K.model xs.now) (covers K.model e.now)) xs.now result }
    {
        let from = place_of(xs, e);
        let (whole, to) = gather(xs, from, *e);
        Splice {
            from,
            to,
            left: Some(whole),
            right: None,
        }
    }

    // The difference with `e`: what it touches gives way to what it leaves of the first and of the last.
    pub fn difference(xs: &[K], e: &K) -> Splice<K>
        ensures { Makes K.model (Without (cover K.model xs.now) (covers K.model e.now)) xs.now result }
    {
        let from = place_of(xs, e);
        let to = reach(xs, from, e);
        if from == to {
            return Splice {
                from,
                to,
                left: None,
                right: None,
            };
        }
        let left = left_part(xs[from], e);
        let right = right_part(xs[to - 1], e);
        Splice {
            from,
            to,
            left,
            right,
        }
    }

    // How many elements a list of so many has then.
    pub fn count(&self, before: usize) -> usize
        requires low { self.now.from ≤ self.now.to }
        requires high { self.now.to ≤ before }
        ensures { result ≡ min (before - (self.now.to - self.now.from) + length (news self.now)) (2 ^ 64 - 1) }
    {
        let others = before - (self.to - self.from);
        others.saturating_add(how_many(self.left, self.right))
    }
}
