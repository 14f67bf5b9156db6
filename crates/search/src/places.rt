// The places of a left side, one after the other.
ghost use Rattle.std.specs.Prelude.{◌≡◌, ◌-◌};
ghost use Rattle.std.specs.Iterator.{at_most};
ghost use Rattle.search.specs.Ranks.{rank};
ghost use Rattle.search.specs.Walks.{reached as Reached, Gives};
ghost use Rattle.search.specs.Steps.{bound as Bound};

use crate::scene::Scene;
use kinds::kind::Kind;
use lattice::placement::Placement;

// The places that come after the last one that was given.
#[derive(Drop)]
pub struct Places<'s, 'a, M, C> {
    pub(crate) scene: &'s Scene<'a, M, C>,
    pub(crate) last: Option<Placement>,
}

// The numbers of the last place, or numbers that stand before those of all.
fn reached(last: Option<Placement>) -> (i32, i32, i32)
    ensures { Bound result ≡ Reached last }
{
    last.map_or((-1, 0, 0), Placement::numbers)
}

impl<'s, 'a, M: Kind, C: Kind> Iterator for Places<'s, 'a, M, C> {
    type Item = Placement;

    ghost can_next = { λ s. Unit {0} };

    ghost next_gives = { λ s r t. Gives M.Kind.model C.Kind.model s r t };

    // No rank reaches 576144009, which is 9 times 8001 times 8001.
    ghost remaining = { λ s. at_most (576144009 - rank (Reached s.last)) };

    fn next(&mut self) -> Option<Placement> {
        let p = self.scene.next(reached(self.last))?;
        self.last = Some(p);
        Some(p)
    }
}
