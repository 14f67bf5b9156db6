// How many places there are, which has a number, and their list.
ghost use Rattle.std.specs.Prelude.{◌≡◌, ℕ, ◌<◌, ◌≤◌, min, List, None, ◌++◌, length, take, drop, MatchResult, OnErr};
ghost use Rattle.lattice.specs.Refusals.{number as Number};
ghost use Rattle.grammar.specs.Numbers.{nth as Nth, ordinal as Ordinal};
ghost use Rattle.search.specs.Scenes.{Listed};

use crate::places::Places;
use crate::scene::Scene;
use grammar::ordinal::ordinal;
use kinds::kind::Kind;
use lattice::placement::Placement;
use lattice::refusal::Refusal;

impl<'a, M: Kind, C: Kind> Scene<'a, M, C> {
    // All places, in order.
    pub fn places(&self) -> Places<'_, 'a, M, C>
        ensures scene { result.scene.now ≡ self.now }
        ensures first { result.last ≡ None }
    {
        Places {
            scene: self,
            last: None,
        }
    }

    // How many places the left side has.
    pub fn count(&self) -> u32
        ensures { (ps : List Placement) → Listed M.Kind.model C.Kind.model self.now ps → result ≡ length ps }
    {
        self.places().count() as u32
    }

    // The place with a number, counted from 1, which may be any number.
    pub fn place(&self, k: i32) -> Option<Placement>
        ensures { (ps : List Placement) → Listed M.Kind.model C.Kind.model self.now ps → result ≡ Nth ps (Ordinal k) }
    {
        let before = ordinal(k).checked_sub(1)?;
        self.places().nth(before as usize)
    }

    // Writes the places in order, as many as there is room for, and says how many. The places are taken by `next`: the borrow
    // checker does not yet read a `zip` of slots that are lent to be changed with an iterator of the crate's own.
    fn write(&self, out: &mut [Placement]) -> usize
        ensures { (ps : List Placement) → Listed M.Kind.model C.Kind.model self.now ps → (result ≡ min (length ps) (length out.old)) × (out.new ≡ take result ps ++ drop result out.old) }
    {
        let mut places = self.places();
        for (n, slot) in out.iter_mut().enumerate() {
            match places.next() {
                Some(p) => *slot = p,
                None => return n,
            }
        }
        out.len()
    }

    // Writes all places from the front of the buffer and says how many; the rest remains. All of it remains if they do not fit.
    pub fn list(&self, out: &mut [Placement]) -> Result<usize, Refusal>
        ensures answer { (ps : List Placement) → Listed M.Kind.model C.Kind.model self.now ps → MatchResult result (λ n. (n ≡ length ps) × (length ps ≤ length out.old) × (out.new ≡ ps ++ drop (length ps) out.old)) (λ e. (Number e ≡ 20) × (length out.old < length ps) × (out.new ≡ out.old)) }
        ensures kept { OnErr result (out.new ≡ out.old) }
    {
        let n = self.count() as usize;
        if n > out.len() {
            return Err(Refusal::BufferFull);
        }
        Ok(self.write(out))
    }
}
