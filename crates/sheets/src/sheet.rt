// A sheet: elements of one kind in slots that are lent to it. No call asks anything of a sheet; what was sound stays sound,
// and of a sound sheet each call says exactly what it covers then.
ghost use Rattle.std.specs.Prelude.{◌≡◌, ℕ, ◌+◌, ◌-◌, ◌^◌, ◌<◌, ◌≤◌, min, true, [], ◌∷◌, length, Decides, MatchResult, OnErr};
ghost use Rattle.lattice.specs.Refusals.{number as Number};
ghost use Rattle.kinds.specs.Model.{covers};
ghost use Rattle.sheets.specs.Cover.{union, difference, sizes};
ghost use Rattle.sheets.specs.Maximal.{Part, Same, Exactly, Counts};
ghost use Rattle.sheets.specs.Census.{Census};
ghost use Rattle.sheets.specs.Contents.{items, room as RoomOf, Sound, covered, Became, Refused, Copied, TooMany};
ghost use Rattle.sheets.specs.Put.{Put, NoPut};

use crate::listed::{how_many, write};
use crate::moved::move_to;
use crate::pieces::{extent, is_same};
use crate::splice::Splice;
use crate::within::lies_within;
use kinds::kind::Kind;
use lattice::refusal::Refusal;

// The most slots that a sheet can have.
pub const MOST_SLOTS: usize = 4096;

// The slots are the caller's, since the library owns no memory; the first `count` of them hold elements. That a sheet is sound
// is said in the clauses and not by the type: `sum_into` makes a sheet over slots of which nothing is known, and a fact of the
// type would have to hold at every write through the lent slots too, so each change would have to lower the count first.
// The clause `lender` says that the slots stay those that were lent, whatever a call answers: so it is not part of one case.
#[derive(Drop)]
pub struct Sheet<'a, K> {
    pub(crate) slots: &'a mut [K],
    pub(crate) count: usize,
}

impl<'a, K: Kind> Sheet<'a, K> {
    // An empty sheet over the slots, of which there may be up to 4096.
    pub fn new(slots: &'a mut [K]) -> Result<Sheet<'a, K>, Refusal>
        ensures { MatchResult result (λ s. Sound K.model s × (items s ≡ []) × (RoomOf s ≡ length slots.old) × (s.slots.ghost_name ≡ slots.entry.ghost_name)) (λ e. (Number e ≡ 10) × (4096 < length slots.old)) }
    {
        if slots.len() > MOST_SLOTS {
            return Err(Refusal::BadTables);
        }
        Ok(Sheet { slots, count: 0 })
    }

    // The elements, in order: of a sound sheet exactly the maximal elements of what it covers.
    pub fn elements(&self) -> &[K]
        ensures value { result.now ≡ items self.now }
        ensures within { length result.now ≤ RoomOf self.now }
        ensures maximal { Sound K.model self.now → Exactly K.model (covered K.model self.now) result.now }
    {
        let n = self.count.min(self.slots.len());
        &self.slots[..n]
    }

    // How many elements there are.
    pub fn count(&self) -> usize
        ensures { result ≡ length (items self.now) }
    {
        self.elements().len()
    }

    // How many slots there are.
    pub fn room(&self) -> usize
        ensures { result ≡ RoomOf self.now }
    {
        self.slots.len()
    }

    // How many slots are free.
    pub fn free(&self) -> usize
        ensures { result + length (items self.now) ≡ RoomOf self.now }
    {
        self.slots.len() - self.elements().len()
    }

    // A part of the elements gives way to others. It is put into its two callers, so that the part is not written down first.
    #[inline(always)]
    fn put(&mut self, part: Splice<K>) -> Result<(), Refusal>
        requires low { part.from ≤ part.to }
        requires high { part.to ≤ length (items self.old) }
        ensures cases { MatchResult result (λ _. Put part self.old self.new) (λ e. NoPut part self.old self.new e) }
        ensures lender { self.new.slots.ghost_name ≡ self.old.slots.ghost_name }
    {
        let n = self.elements().len();
        let others = n - (part.to - part.from);
        let more = how_many(part.left, part.right);
        if more > self.slots.len() - others {
            return Err(Refusal::SheetFull);
        }
        move_to(self.slots, part.to, n, part.from + more);
        write(&mut self.slots[part.from..], part.left, part.right);
        self.count = others + more;
        Ok(())
    }

    // Sum with one element: the sheet covers the atoms of `e` too.
    pub fn add(&mut self, e: K) -> Result<(), Refusal>
        ensures cases { MatchResult result (λ _. Became K.model (union (covered K.model self.old) (covers K.model e)) self.old self.new) (λ why. Refused K.model (union (covered K.model self.old) (covers K.model e)) self.old self.new why) }
        ensures longer { length (items self.new) ≤ length (items self.old) + 1 }
        ensures taken { OnErr result (length (items self.old) ≡ RoomOf self.old) }
        ensures lender { self.new.slots.ghost_name ≡ self.old.slots.ghost_name }
    {
        self.put(Splice::sum(self.elements(), &e))
    }

    // Difference with one element: the sheet covers the atoms of `e` no more.
    pub fn remove(&mut self, e: K) -> Result<(), Refusal>
        ensures cases { MatchResult result (λ _. Became K.model (difference (covered K.model self.old) (covers K.model e)) self.old self.new) (λ why. Refused K.model (difference (covered K.model self.old) (covers K.model e)) self.old self.new why) }
        ensures longer { length (items self.new) ≤ length (items self.old) + 1 }
        ensures taken { OnErr result (length (items self.old) ≡ RoomOf self.old) }
        ensures lender { self.new.slots.ghost_name ≡ self.old.slots.ghost_name }
    {
        self.put(Splice::difference(self.elements(), &e))
    }

    // How many elements the sheet would have with the atoms of `e`.
    pub fn count_with(&self, e: &K) -> usize
        ensures exact { Sound K.model self.now → Counts K.model (union (covered K.model self.now) (covers K.model e.now)) result }
        ensures few { result ≤ length (items self.now) + 1 }
    {
        let xs = self.elements();
        Splice::sum(xs, e).count(xs.len())
    }

    // How many elements the sheet would have without the atoms of `e`.
    pub fn count_without(&self, e: &K) -> usize
        ensures exact { Sound K.model self.now → Counts K.model (difference (covered K.model self.now) (covers K.model e.now)) result }
        ensures few { result ≤ length (items self.now) + 1 }
    {
        let xs = self.elements();
        Splice::difference(xs, e).count(xs.len())
    }

    // Whether the sheet covers all atoms of `e`.
    pub fn covers_element(&self, e: &K) -> bool
        ensures { Sound K.model self.now → Decides result (Part (covers K.model e.now) (covered K.model self.now)) }
    {
        lies_within(e, self.elements())
    }

    // Whether every atom that the sheet covers is covered by the other.
    pub fn is_part_of(&self, other: &Sheet<K>) -> bool
        ensures { Sound K.model other.now → Decides result (Part (covered K.model self.now) (covered K.model other.now)) }
    {
        self.elements().iter().all(|e| other.covers_element(e))
    }

    // Whether the two sheets cover the same, which is whether they have the same list. It is no `==`, whose law asks for a test
    // of sameness in the model, where a kind has none.
    pub fn same(&self, other: &Sheet<K>) -> bool
        ensures cover { Sound K.model self.now → Sound K.model other.now → Decides result (Same (covered K.model self.now) (covered K.model other.now)) }
        ensures list { Decides result (items self.now ≡ items other.now) }
    {
        let xs = self.elements();
        let ys = other.elements();
        xs.len() == ys.len() && xs.iter().zip(ys).all(|(x, y)| is_same(x, y))
    }

    // How many atoms the sheet covers. If it is not sound, the sum of its elements' atoms, or the greatest number if that is more.
    // It is counted by a `for` over the counted part of the slots, adding each span.
    pub fn atoms(&self) -> u64
        ensures value { result ≡ min (sizes K.model (items self.now)) (2 ^ 64 - 1) }
        ensures exact { Sound K.model self.now → Census (covered K.model self.now) result }
    {
        let mut sum: u64 = 0;
        for e in self.elements() {
            sum = sum.saturating_add(extent(e));
        }
        sum
    }

    // The sheet becomes a copy of the other, if it has slots enough.
    pub fn copy_from(&mut self, other: &Sheet<K>) -> Result<(), Refusal>
        ensures cases { MatchResult result (λ _. Copied K.model other.now self.old self.new) (λ why. TooMany other.now self.old self.new why) }
        ensures lender { self.new.slots.ghost_name ≡ self.old.slots.ghost_name }
    {
        let xs = other.elements();
        let n = xs.len();
        if n > self.slots.len() {
            return Err(Refusal::SheetFull);
        }
        self.slots[0..n].copy_from_slice(xs);
        self.count = n;
        Ok(())
    }
}
