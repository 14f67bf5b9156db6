// Sum and difference with a whole sheet, in place. The elements of a sound sheet do not touch each other, so each changes the
// number of elements independently of the others. So their effects are counted first; then those are carried out that do not
// lengthen the list, and then the others, so that no moment needs more slots than the end.
ghost use Rattle.std.specs.Prelude.{◌≡◌, MatchResult};
ghost use Rattle.sheets.specs.Change.{by};
ghost use Rattle.sheets.specs.Cover.{union, difference};
ghost use Rattle.sheets.specs.Maximal.{Counts, Same};
ghost use Rattle.sheets.specs.Contents.{items, room as RoomOf, covered, Sound};
ghost use Rattle.sheet_sums.specs.Whole.{BecameAll, RefusedAll, Begun, Fits};

use kinds::kind::Kind;
use lattice::refusal::Refusal;
use sheets::change::{Change, Difference, Sum};
use sheets::sheet::Sheet;

// How many elements the sheet has, changed by the other.
fn count_all<C: Change, K: Kind>(sheet: &Sheet<K>, other: &Sheet<K>) -> usize
    ensures { Sound K.model sheet.now → Sound K.model other.now → Counts K.model (by C.op (covered K.model sheet.now) (covered K.model other.now)) result }
{
    let before = sheet.count();
    let mut count = before;
    for e in other.elements() {
        count = count
            .saturating_add(C::count(sheet, e))
            .saturating_sub(before);
    }
    count
}

// The change by those elements of the other that do not lengthen the list.
fn change_unlengthened<C: Change, K: Kind>(sheet: &mut Sheet<K>, other: &Sheet<K>)
    ensures sound { Sound K.model sheet.old → Sound K.model sheet.new }
    ensures room { RoomOf sheet.new ≡ RoomOf sheet.old }
    ensures begun { Sound K.model sheet.old → Sound K.model other.now → Begun K.model C.op (items other.now) other.now sheet.old sheet.new }
    ensures lender { sheet.new.slots.ghost_name ≡ sheet.old.slots.ghost_name }
{
    for e in other.elements() {
        if C::count(sheet, e) <= sheet.count() {
            let _ = C::change(sheet, *e);
        }
    }
}

// The change by every element of the other, if there is room for each.
fn change_each<C: Change, K: Kind>(sheet: &mut Sheet<K>, other: &Sheet<K>)
    ensures sound { Sound K.model sheet.old → Sound K.model sheet.new }
    ensures room { RoomOf sheet.new ≡ RoomOf sheet.old }
    ensures covers { Sound K.model sheet.old → Sound K.model other.now → Fits K.model C.op other.now sheet.old → Same (covered K.model sheet.new) (by C.op (covered K.model sheet.old) (covered K.model other.now)) }
    ensures lender { sheet.new.slots.ghost_name ≡ sheet.old.slots.ghost_name }
{
    for e in other.elements() {
        let _ = C::change(sheet, *e);
    }
}

// The change by a whole sheet.
fn change_all<C: Change, K: Kind>(sheet: &mut Sheet<K>, other: &Sheet<K>) -> Result<(), Refusal>
    ensures cases { MatchResult result (λ _. BecameAll K.model (by C.op (covered K.model sheet.old) (covered K.model other.now)) other.now sheet.old sheet.new) (λ why. RefusedAll K.model (by C.op (covered K.model sheet.old) (covered K.model other.now)) other.now sheet.old sheet.new why) }
    ensures lender { sheet.new.slots.ghost_name ≡ sheet.old.slots.ghost_name }
{
    if count_all::<C, K>(sheet, other) > sheet.room() {
        return Err(Refusal::SheetFull);
    }
    change_unlengthened::<C, K>(sheet, other);
    change_each::<C, K>(sheet, other);
    Ok(())
}

// Sum with a whole sheet: the sheet covers the atoms of the other too.
pub fn add_all<K: Kind>(sheet: &mut Sheet<K>, other: &Sheet<K>) -> Result<(), Refusal>
    ensures cases { MatchResult result (λ _. BecameAll K.model (union (covered K.model sheet.old) (covered K.model other.now)) other.now sheet.old sheet.new) (λ why. RefusedAll K.model (union (covered K.model sheet.old) (covered K.model other.now)) other.now sheet.old sheet.new why) }
    ensures lender { sheet.new.slots.ghost_name ≡ sheet.old.slots.ghost_name }
{
    change_all::<Sum, K>(sheet, other)
}

// Difference with a whole sheet: the sheet covers the atoms of the other no more.
pub fn remove_all<K: Kind>(sheet: &mut Sheet<K>, other: &Sheet<K>) -> Result<(), Refusal>
    ensures cases { MatchResult result (λ _. BecameAll K.model (difference (covered K.model sheet.old) (covered K.model other.now)) other.now sheet.old sheet.new) (λ why. RefusedAll K.model (difference (covered K.model sheet.old) (covered K.model other.now)) other.now sheet.old sheet.new why) }
    ensures lender { sheet.new.slots.ghost_name ≡ sheet.old.slots.ghost_name }
{
    change_all::<Difference, K>(sheet, other)
}
