// Ink over any kind is a kind.
ghost use Rattle.elements.specs.Inks.{ink_model as InkModel};
ghost use Rattle.elements.specs.InkRules.{ink_rules};

use crate::ink::Ink;
use kinds::kind::Kind;
use lattice::placement::Placement;
use lattice::turn::Turn;
use std::cmp::Ordering;

impl<K: Kind> Kind for Ink<K> {
    type Carrier = Ink<K::Carrier>;

    type Atom = Ink<K::Atom>;

    ghost model = { InkModel K.Kind.model };

    ghost rules = { ink_rules K.Kind.model K.Kind.rules };

    fn carrier(&self) -> Ink<K::Carrier> {
        Ink {
            ink: self.ink,
            under: self.under.carrier(),
        }
    }

    fn compare(&self, other: &Ink<K>) -> Ordering {
        let inks = self.ink.cmp(&other.ink);
        inks.then(self.under.compare(&other.under))
    }

    fn start(&self) -> i32 {
        self.under.start()
    }

    fn end(&self) -> i32 {
        self.under.end()
    }

    fn join(self, other: Ink<K>) -> Option<Ink<K>> {
        if self.ink != other.ink {
            return None;
        }
        let under = self.under.join(other.under)?;
        Some(Ink {
            ink: self.ink,
            under,
        })
    }

    fn part(self, from: i32, to: i32) -> Option<Ink<K>> {
        let under = self.under.part(from, to)?;
        Some(Ink {
            ink: self.ink,
            under,
        })
    }

    fn atom(&self, at: i32) -> Option<Ink<K::Atom>> {
        let under = self.under.atom(at)?;
        Some(Ink {
            ink: self.ink,
            under,
        })
    }

    fn place(self, p: Placement) -> Option<Ink<K>> {
        let under = self.under.place(p)?;
        Some(Ink {
            ink: self.ink,
            under,
        })
    }

    fn shifts(turn: Turn, from: Ink<K::Atom>, to: Ink<K::Atom>) -> Option<(i32, i32)> {
        if from.ink != to.ink {
            return None;
        }
        K::shifts(turn, from.under, to.under)
    }
}
