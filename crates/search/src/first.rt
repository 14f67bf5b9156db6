// The first place after given numbers. Some atom of the left side goes to an atom of the drawing, and for each turn and each
// such atom there is at most one placement to try. The numbers that it comes after and the best so far go through the
// searches side by side; a struct of them would be taken apart at each step, since only the best changes. That the
// atom which the searches start from lies in the field is a premise of what is found, like the order of the elements: an atom
// may be any value of its type.
ghost use Rattle.std.specs.Prelude.{◌≡◌, true, false, ◌&&◌, T, pos, ◌<ℤ◌, MatchOption};
ghost use Rattle.lattice.specs.Field.{shifting};
ghost use Rattle.lattice.specs.Turns.{index as Index};
ghost use Rattle.lattice.specs.Order.{Before, triple as Triple};
ghost use Rattle.kinds.specs.Model.{covers};
ghost use Rattle.sheets.specs.Cover.{cover};
ghost use Rattle.grammar.specs.Places.{LeastOf, Least};
ghost use Rattle.search.specs.Scenes.{Canonical, Fits, sought as Sought, drawn as Drawn};
ghost use Rattle.search.specs.Steps.{bound as Bound, After, Beats, Beaten, Tried, Lands, Turned, Improves, FirstAtom};

use crate::scene::Scene;
use kinds::kind::Kind;
use lattice::placement::Placement;
use lattice::turn::Turn;

// The placement of a turn and two shifts, if it may shift so far.
fn shifted(turn: Turn, by: (i32, i32)) -> Option<Placement>
    ensures { MatchOption result ((shifting by.0 && shifting by.1) ≡ false) (λ p. (p.turn ≡ turn) × (p.across ≡ by.0) × (p.up ≡ by.1)) }
{
    Placement::new(turn, by.0, by.1)
}

// Whether `q` comes before what was best so far. A `match`, since the proof by `is_none_or` with a closure did not close.
fn beats(q: Placement, best: Option<Placement>) -> bool
    ensures yes { result ≡ true → Beats q best }
    ensures no { result ≡ false → Beaten q best }
{
    match best {
        Some(b) => q.earlier(b),
        None => true,
    }
}

// The first atom of the first element.
fn first_atom<K: Kind>(xs: &[K]) -> Option<K::Atom>
    ensures { FirstAtom K.model xs.now result }
{
    let e = xs.first()?;
    e.atom(e.start())
}

// Whether no placement of a turn comes after the bound.
fn is_too_early(turn: Turn, after: (i32, i32, i32)) -> bool
    ensures { T result → pos (Index turn) <ℤ after.0 }
{
    i32::from(turn.index()) < after.0
}

impl<'a, M: Kind, C: Kind> Scene<'a, M, C> {
    // The best so far, or `q` if that is better: it comes after the bound and before the best, and fits.
    fn improved(
        &self,
        after: (i32, i32, i32),
        best: Option<Placement>,
        q: Placement,
    ) -> Option<Placement>
        ensures least { Canonical M.Kind.model C.Kind.model self.now → Tried (Bound after) best q (Fits M.Kind.model C.Kind.model self.now q) result }
        ensures later { After (Bound after) best → After (Bound after) result }
    {
        if !q.after(after.0, after.1, after.2) {
            return best;
        }
        if !beats(q, best) {
            return best;
        }
        if self.fits(q) { Some(q) } else { best }
    }

    // The best, with the placement of a turn that takes `from` to the atom of `e` at a position.
    fn best_at<K: Kind>(
        &self,
        from: K::Atom,
        turn: Turn,
        e: &K,
        at: i32,
        after: (i32, i32, i32),
        best: Option<Placement>,
    ) -> Option<Placement>
        ensures least { Canonical M.Kind.model C.Kind.model self.now → K.Kind.model.field from ≡ true → Improves (Turned K.Kind.model (Fits M.Kind.model C.Kind.model self.now) from (λ a. (covers K.Kind.model e.now a ≡ true) × (K.Kind.model.at a ≡ at)) (Index turn)) (Bound after) best result }
        ensures later { After (Bound after) best → After (Bound after) result }
    {
        let Some(to) = e.atom(at) else {
            return best;
        };
        let Some(by) = K::shifts(turn, from, to) else {
            return best;
        };
        match shifted(turn, by) {
            Some(q) => self.improved(after, best, q),
            None => best,
        }
    }

    // The best, with the placements of a turn that take `from` to an atom of `e`.
    fn best_on<K: Kind>(
        &self,
        from: K::Atom,
        turn: Turn,
        e: &K,
        after: (i32, i32, i32),
        best: Option<Placement>,
    ) -> Option<Placement>
        ensures least { Canonical M.Kind.model C.Kind.model self.now → K.Kind.model.field from ≡ true → Improves (Turned K.Kind.model (Fits M.Kind.model C.Kind.model self.now) from (λ a. covers K.Kind.model e.now a ≡ true) (Index turn)) (Bound after) best result }
        ensures later { After (Bound after) best → After (Bound after) result }
    {
        let mut found = best;
        for at in e.start()..e.end() {
            found = self.best_at(from, turn, e, at, after, found);
        }
        found
    }

    // The first place of a turn that takes `from` to an atom of the elements.
    fn first_of_turn<K: Kind>(
        &self,
        from: K::Atom,
        turn: Turn,
        xs: &[K],
        after: (i32, i32, i32),
    ) -> Option<Placement>
        ensures least { Canonical M.Kind.model C.Kind.model self.now → K.Kind.model.field from ≡ true → LeastOf (Turned K.Kind.model (Fits M.Kind.model C.Kind.model self.now) from (λ a. cover K.Kind.model xs.now a ≡ true) (Index turn)) (Bound after) result }
        ensures later { After (Bound after) result }
    {
        let mut best = None;
        for x in xs {
            best = self.best_on(from, turn, x, after, best);
        }
        best
    }

    // The first place that takes `from` to an atom of the elements.
    fn first_of_all<K: Kind>(
        &self,
        from: K::Atom,
        xs: &[K],
        after: (i32, i32, i32),
    ) -> Option<Placement>
        ensures least { Canonical M.Kind.model C.Kind.model self.now → K.Kind.model.field from ≡ true → LeastOf (Lands K.Kind.model (Fits M.Kind.model C.Kind.model self.now) from (λ a. cover K.Kind.model xs.now a ≡ true)) (Bound after) result }
        ensures later { After (Bound after) result }
    {
        for turn in Turn::ALL {
            if is_too_early(turn, after) {
                continue;
            }
            if let Some(p) = self.first_of_turn(from, turn, xs, after) {
                return Some(p);
            }
        }
        None
    }

    // The first place after any three numbers, read as a turn, a shift across and a shift up.
    pub fn next(&self, after: (i32, i32, i32)) -> Option<Placement>
        ensures least { Canonical M.Kind.model C.Kind.model self.now → Least M.Kind.model C.Kind.model (Sought M.Kind.model C.Kind.model self.now) (Drawn M.Kind.model C.Kind.model self.now) (Bound after) result }
        ensures later { After (Bound after) result }
    {
        if let Some(from) = first_atom(self.left_marks) {
            return self.first_of_all(from, self.marks, after);
        }
        if let Some(from) = first_atom(self.left_cuts) {
            return self.first_of_all(from, self.cuts, after);
        }
        None
    }
}
