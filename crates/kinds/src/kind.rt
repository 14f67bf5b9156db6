// A kind of element. The ghost model says what elements, atoms and carriers mean, and the law which rules hold of it;
// all of the library above uses a kind by these alone.
ghost use Rattle.std.specs.Prelude.{◌≡◌};
ghost use Rattle.lattice.specs.Turns.{index as Index};
ghost use Rattle.kinds.specs.Model.{KindModel};
ghost use Rattle.kinds.specs.Rules.{Rules};
ghost use Rattle.kinds.specs.Answers.{Joins, Parts, AtomAt, Shifts};

use lattice::placement::Placement;
use lattice::turn::Turn;
use std::cmp::Ordering;

pub trait Kind: Copy {
    type Carrier: Copy;

    type Atom: Copy;

    ghost model: { KindModel Self Self.Atom Self.Carrier };

    // The track on which the element lies.
    fn carrier(&self) -> Self::Carrier
        ensures { result ≡ model.carrier self.now };

    // The order of the two elements' carriers.
    fn compare(&self, other: &Self) -> Ordering
        ensures { result ≡ model.order (model.carrier self.now) (model.carrier other.now) };

    // The position of the element's first atom.
    fn start(&self) -> i32
        ensures { result ≡ model.start self.now };

    // The position after that of its last atom.
    fn end(&self) -> i32
        ensures { result ≡ model.end self.now };

    // The two made one, if they lie on one carrier and overlap or touch.
    fn join(self, other: Self) -> Option<Self>
        ensures { Joins model self other result };

    // The stretch from one position up to another, if it is a stretch of the element.
    fn part(self, from: i32, to: i32) -> Option<Self>
        ensures { Parts model self from to result };

    // The element's atom at a position, if it has one there.
    fn atom(&self, at: i32) -> Option<Self::Atom>
        ensures { AtomAt model self.now at result };

    // The element to which the placement takes this one, if it lies in the field.
    fn place(self, p: Placement) -> Option<Self>
        ensures { result ≡ model.place p self };

    // The shifts across and up that, after the turn, take the one atom of the field to the other, if there are any.
    fn shifts(turn: Turn, from: Self::Atom, to: Self::Atom) -> Option<(i32, i32)>
        ensures { Shifts model (Index turn) from to result };

    ghost rules: { Rules model };
}
