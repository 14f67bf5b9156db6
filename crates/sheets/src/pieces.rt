// One element beside another.
ghost use Rattle.std.specs.Prelude.{◌≡◌, Decides};
ghost use Rattle.kinds.specs.Model.{covers};
ghost use Rattle.kinds.specs.Rules.{Touch};
ghost use Rattle.sheets.specs.Cover.{ahead, size};
ghost use Rattle.sheets.specs.Maximal.{Part};
ghost use Rattle.sheets.specs.Finding.{LeftPart, RightPart};

use kinds::kind::Kind;
use std::cmp::Ordering;

// Whether `a` stands before `b` and does not touch it.
pub fn is_ahead<K: Kind>(a: &K, b: &K) -> bool
    ensures { result ≡ ahead K.model a.now b.now }
{
    match a.compare(b) {
        Ordering::Less => true,
        Ordering::Equal => a.end() < b.start(),
        Ordering::Greater => false,
    }
}

// Whether two elements overlap or touch.
pub fn touches<K: Kind>(a: &K, b: &K) -> bool
    ensures { Decides result (Touch K.model a.now b.now) }
{
    a.compare(b).is_eq() && a.start() <= b.end() && b.start() <= a.end()
}

// Whether all atoms of `e` are atoms of `x`.
pub fn contains<K: Kind>(x: &K, e: &K) -> bool
    ensures { Decides result (Part (covers K.model e.now) (covers K.model x.now)) }
{
    x.compare(e).is_eq() && x.start() <= e.start() && e.end() <= x.end()
}

// Whether two elements are the same. Of a kind no `==` is asked, since what they cover tells elements apart.
pub fn is_same<K: Kind>(a: &K, b: &K) -> bool
    ensures { Decides result (a.now ≡ b.now) }
{
    contains(a, b) && contains(b, a)
}

// What of `x` lies before the start of `e`, and below the same mirrored: other ends meet in each, and no number tells them apart.
pub fn left_part<K: Kind>(x: K, e: &K) -> Option<K>
    ensures { LeftPart K.model e.now x result }
{
    x.part(x.start(), x.end().min(e.start()))
}

// What of `x` lies from the end of `e` on.
pub fn right_part<K: Kind>(x: K, e: &K) -> Option<K>
    ensures { RightPart K.model e.now x result }
{
    x.part(x.start().max(e.end()), x.end())
}

// How many atoms an element has.
pub fn extent<K: Kind>(e: &K) -> u64
    ensures { result ≡ size K.model e.now }
{
    u64::from(e.end().abs_diff(e.start()))
}
