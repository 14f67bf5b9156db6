// One element in a list of others.
ghost use Rattle.std.specs.Prelude.{◌≡◌, ℕ, ◌+◌, ◌<◌, ◌≤◌, true, length, slice_index_or};
ghost use Rattle.std.specs.List.{between, AllByRecursion};
ghost use Rattle.kinds.specs.Rules.{Touch};
ghost use Rattle.sheets.specs.Cover.{ahead, canonical};
ghost use Rattle.sheets.specs.Finding.{Parted, Whole};

use crate::pieces::{is_ahead, touches};
use kinds::kind::Kind;

// How many elements stand before `e` and do not touch it.
pub fn place_of<K: Kind>(xs: &[K], e: &K) -> usize
    ensures within { result ≤ length xs.now }
    ensures parted { canonical K.model xs.now ≡ true → Parted (λ x. ahead K.model x e.now) xs.now result }
{
    xs.partition_point(|x| is_ahead(x, e))
}

// `e` joined with the elements that it touches, from `from` on, and where they end.
pub fn gather<K: Kind>(xs: &[K], from: usize, e: K) -> (K, usize)
    requires { from ≤ length xs.now }
    ensures low { from ≤ result.1 }
    ensures high { result.1 ≤ length xs.now }
    ensures whole { Whole K.model e (between from result.1 xs.now) result.0 }
    ensures ends { (d : K) → result.1 < length xs.now → Touch K.model result.0 (slice_index_or xs.now result.1 d) → ⊥ }
{
    let mut whole = e;
    for (more, x) in xs[from..].iter().enumerate() {
        match whole.join(*x) {
            Some(joined) => whole = joined,
            None => return (whole, from + more),
        }
    }
    (whole, xs.len())
}

// Where the elements end that `e` touches, from `from` on.
pub fn reach<K: Kind>(xs: &[K], from: usize, e: &K) -> usize
    requires { from ≤ length xs.now }
    ensures low { from ≤ result }
    ensures high { result ≤ length xs.now }
    ensures all { AllByRecursion (Touch K.model e.now) (between from result xs.now) }
    ensures ends { (d : K) → result < length xs.now → Touch K.model e.now (slice_index_or xs.now result d) → ⊥ }
{
    match xs[from..].iter().position(|x| !touches(e, x)) {
        Some(more) => from + more,
        None => xs.len(),
    }
}
