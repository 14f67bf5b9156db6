// A left side, and the drawing on which it is looked for. That the drawing's elements stand in order is a premise of what is
// found, and no fact of the type: a scene is made of slices, of which nothing is known.
ghost use Rattle.std.specs.Prelude.{◌≡◌, true, Decides};
ghost use Rattle.sheets.specs.Cover.{canonical};
ghost use Rattle.search.specs.Scenes.{Canonical, OneOnto, Onto, Fits};

use kinds::kind::Kind;
use lattice::placement::Placement;
use sheets::within::lies_within;

#[derive(Drop)]
pub struct Scene<'a, M, C> {
    pub left_marks: &'a [M],
    pub left_cuts: &'a [C],
    pub marks: &'a [M],
    pub cuts: &'a [C],
}

// Whether `p` takes every atom of the element to an atom of the drawn ones. A `match`, since the proof by `is_some_and` with
// a closure did not close.
fn lands_within<K: Kind>(e: &K, drawn: &[K], p: Placement) -> bool
    ensures { canonical K.model drawn.now ≡ true → Decides result (OneOnto K.model e.now drawn.now p) }
{
    match e.place(p) {
        Some(f) => lies_within(&f, drawn),
        None => false,
    }
}

// Whether `p` takes every atom of the left elements to an atom of the drawn ones.
fn is_onto<K: Kind>(left: &[K], drawn: &[K], p: Placement) -> bool
    ensures { canonical K.model drawn.now ≡ true → Decides result (Onto K.model left.now drawn.now p) }
{
    left.iter().all(|e| lands_within(e, drawn, p))
}

impl<'a, M: Kind, C: Kind> Scene<'a, M, C> {
    // Whether `p` puts the left side on the drawing.
    pub fn fits(&self, p: Placement) -> bool
        ensures { Canonical M.Kind.model C.Kind.model self.now → Decides result (Fits M.Kind.model C.Kind.model self.now p) }
    {
        is_onto(self.left_marks, self.marks, p) && is_onto(self.left_cuts, self.cuts, p)
    }
}
