// Changes of one sheet: a stroke on a sheet and its start copy, and a rule's side that gives way to the other.
ghost use Rattle.std.specs.Prelude.{◌≡◌, ◌+◌, ◌≤◌, length, Decides, MatchResult};
ghost use Rattle.sheets.specs.Contents.{items, room as RoomOf, covered};
ghost use Rattle.sheets.specs.Cover.{union, difference};
ghost use Rattle.grammar.specs.Sets.{atoms as AtomsOf, placed as Placed};
ghost use Rattle.sheets.specs.Change.{by};
ghost use Rattle.drawing.specs.Changes.{changed as Changed, stays as Stays, Turned, Both, Neither};

use kinds::kind::Kind;
use lattice::placement::Placement;
use lattice::refusal::Refusal;
use sheets::change::{Change, Difference, Sum};
use sheets::sheet::Sheet;

// The sheet and its start copy are changed by an element.
pub fn change_both<W: Change, K: Kind>(
    sheet: &mut Sheet<K>,
    start: &mut Sheet<K>,
    e: K,
) -> Result<(), Refusal>
    ensures { MatchResult result (λ _. Both K.model (Changed K.model W.op e) sheet.old start.old sheet.new start.new) (λ why. Neither K.model (Changed K.model W.op e) why sheet.old start.old sheet.new start.new) }
{
    W::change(sheet, e)?;
    let _ = W::change(start, e);
    Ok(())
}

// Whether every element, placed, stays in the field.
pub fn all_stay<K: Kind>(xs: &[K], p: Placement) -> bool
    ensures { result ≡ Stays K.model p xs.now }
{
    xs.iter().all(|x| x.place(p).is_some())
}

// Whether there is room for `left` and `right` more elements.
pub fn has_room<K: Kind>(sheet: &Sheet<K>, left: usize, right: usize) -> bool
    ensures { Decides result (length (items sheet.now) + (left + right) ≤ RoomOf sheet.now) }
{
    let free = sheet.free();
    left <= free && right <= free - left
}

// The sheet is changed by the element `x`, placed.
fn change_placed<W: Change, K: Kind>(sheet: &mut Sheet<K>, x: &K, p: Placement)
    ensures { Turned K.model 1 (by W.op (covered K.model sheet.old) (AtomsOf K.model (K.model.place p x.now))) sheet.old sheet.new }
{
    if let Some(e) = x.place(p) {
        let _ = W::change(sheet, e);
    }
}

// The sheet is changed by the elements of `xs`, placed.
fn change_all_placed<W: Change, K: Kind>(sheet: &mut Sheet<K>, xs: &[K], p: Placement)
    ensures { Turned K.model (length xs.now) (by W.op (covered K.model sheet.old) (Placed K.model p xs.now)) sheet.old sheet.new }
{
    for x in xs {
        change_placed::<W, K>(sheet, x, p);
    }
}

// The elements of `left`, placed, are taken off, and then those of `right` are put on.
pub fn replace<K: Kind>(sheet: &mut Sheet<K>, left: &[K], right: &[K], p: Placement)
    ensures { Turned K.model (length left.now + length right.now) (union (difference (covered K.model sheet.old) (Placed K.model p left.now)) (Placed K.model p right.now)) sheet.old sheet.new }
{
    change_all_placed::<Difference, K>(sheet, left, p);
    change_all_placed::<Sum, K>(sheet, right, p);
}
