// A table that all rules share for one side and one kind: the stretches of earlier rules, and then the open stretch of
// the latest, which alone still grows.
ghost use Rattle.std.specs.Prelude.{◌≡◌, ◌<◌, length, MatchResult};
ghost use Rattle.lattice.specs.Refusals.{number as Number};
ghost use Rattle.rulebook.specs.Tables.{stretch_of as StretchOf, Tidy, Grew, Stayed};

use kinds::kind::Kind;
use lattice::refusal::Refusal;
use sheets::sheet::MOST_SLOTS;
use sheets::slots::sum_into;

// The slots from `from` up to `to`.
#[derive(Clone, Copy, PartialEq, Eq, Debug)]
pub struct Stretch {
    pub from: usize,
    pub to: usize,
}

// The slots are lent by the caller, who has the memory, so the table counts for itself how many are used.
#[derive(Drop)]
pub struct Table<'a, K> {
    slots: &'a mut [K],
    from: usize,
    used: usize,
}

impl<'a, K: Kind> Table<'a, K> {
    // A table without a stretch; refused if it has more than 4096 slots.
    pub fn new(slots: &'a mut [K]) -> Result<Table<'a, K>, Refusal>
        ensures { MatchResult result (λ t. Tidy K.model t × (t.from ≡ 0) × (t.used ≡ 0) × (length t.slots.now ≡ length slots.old)) (λ why. (Number why ≡ 10) × (4096 < length slots.old)) }
    {
        if slots.len() > MOST_SLOTS {
            return Err(Refusal::BadTables);
        }
        Ok(Table {
            slots,
            from: 0,
            used: 0,
        })
    }

    // The latest stretch.
    pub fn stretch(&self) -> Stretch
        ensures from { result.from ≡ self.now.from }
        ensures to { result.to ≡ self.now.used }
    {
        Stretch {
            from: self.from,
            to: self.used,
        }
    }

    // The latest stretch is closed, and an empty one begins behind it.
    pub fn close(&mut self)
        ensures slots { self.new.slots ≡ self.old.slots }
        ensures from { self.new.from ≡ self.old.used }
        ensures used { self.new.used ≡ self.old.used }
    {
        self.from = self.used;
    }

    // The elements of a stretch, as far as the table has them.
    pub fn part(&self, s: Stretch) -> &[K]
        ensures { result.now ≡ StretchOf self.now.slots.now s }
    {
        let from = s.from.min(self.slots.len());
        let to = s.to.clamp(from, self.slots.len());
        &self.slots[from..to]
    }

    // The open stretch becomes its sum with `e`.
    pub fn sum(&mut self, e: K) -> Result<(), Refusal>
        ensures cases { MatchResult result (λ _. Grew K.model e self.old self.new) (λ why. Stayed K.model e why self.old self.new) }
        ensures lender { self.new.slots.ghost_name ≡ self.old.slots.ghost_name }
    {
        let from = self.from.min(self.slots.len());
        let count = self.used.saturating_sub(from);
        let n = sum_into(&mut self.slots[from..], count, e)?;
        self.used = from + n;
        Ok(())
    }
}
