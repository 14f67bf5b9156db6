// Whether a sorted list covers an element.
ghost use Rattle.std.specs.Prelude.{◌≡◌, true, Decides};
ghost use Rattle.kinds.specs.Model.{covers};
ghost use Rattle.sheets.specs.Cover.{cover, canonical};
ghost use Rattle.sheets.specs.Maximal.{Part};

use crate::finding::place_of;
use crate::pieces::contains;
use kinds::kind::Kind;

// Whether sorted elements cover all atoms of `e`: if one does, it is the first that does not stand before it.
pub fn lies_within<K: Kind>(e: &K, xs: &[K]) -> bool
    ensures { canonical K.model xs.now ≡ true → Decides result (Part (covers K.model e.now) (cover K.model xs.now)) }
{
    xs.get(place_of(xs, e)).is_some_and(|x| contains(x, e))
}
