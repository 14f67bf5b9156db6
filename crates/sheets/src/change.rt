// The changes of a sheet by one element, sum and difference, as types: what is said of both is said once, of any change.
ghost use Rattle.std.specs.Prelude.{◌≡◌, ◌+◌, ◌≤◌, Bool, true, false, length, refl, MatchResult, OnErr};
ghost use Rattle.kinds.specs.Model.{covers};
ghost use Rattle.sheets.specs.Change.{plus, minus, by, Lawful};
ghost use Rattle.sheets.specs.Maximal.{Counts};
ghost use Rattle.sheets.specs.Contents.{items, room as RoomOf, Sound, covered, Became, Refused};

use crate::sheet::Sheet;
use kinds::kind::Kind;
use lattice::refusal::Refusal;

// A change by one element. The ghost operation says whether an atom is covered after it, by whether it was and is one of the element's.
pub trait Change {
    ghost op: { Bool → Bool → Bool };

    // The sheet is changed by the element.
    fn change<K: Kind>(sheet: &mut Sheet<K>, e: K) -> Result<(), Refusal>
        ensures cases { MatchResult result (λ _. Became K.model (by op (covered K.model sheet.old) (covers K.model e)) sheet.old sheet.new) (λ why. Refused K.model (by op (covered K.model sheet.old) (covers K.model e)) sheet.old sheet.new why) }
        ensures longer { length (items sheet.new) ≤ length (items sheet.old) + 1 }
        ensures taken { OnErr result (length (items sheet.old) ≡ RoomOf sheet.old) }
        ensures lender { sheet.new.slots.ghost_name ≡ sheet.old.slots.ghost_name };

    // How many elements the sheet would have after the change.
    fn count<K: Kind>(sheet: &Sheet<K>, e: &K) -> usize
        ensures exact { Sound K.model sheet.now → Counts K.model (by op (covered K.model sheet.now) (covers K.model e.now)) result }
        ensures few { result ≤ length (items sheet.now) + 1 };

    ghost laws: { Lawful op };
}

// The sum.
pub struct Sum;

impl Change for Sum {
    ghost op = { plus };

    ghost laws = { record { none = elim [ true ↦ refl | false ↦ refl ]; both = elim [ true ↦ λ t u. refl | false ↦ λ t u. refl ] } };

    fn change<K: Kind>(sheet: &mut Sheet<K>, e: K) -> Result<(), Refusal> {
        sheet.add(e)
    }

    fn count<K: Kind>(sheet: &Sheet<K>, e: &K) -> usize {
        sheet.count_with(e)
    }
}

// The difference.
pub struct Difference;

impl Change for Difference {
    ghost op = { minus };

    ghost laws = { record { none = elim [ true ↦ refl | false ↦ refl ]; both = elim [ true ↦ elim [ true ↦ λ u. refl | false ↦ λ u. refl ] | false ↦ λ t u. refl ] } };

    fn change<K: Kind>(sheet: &mut Sheet<K>, e: K) -> Result<(), Refusal> {
        sheet.remove(e)
    }

    fn count<K: Kind>(sheet: &Sheet<K>, e: &K) -> usize {
        sheet.count_without(e)
    }
}
