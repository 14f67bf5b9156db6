// Sums on slots that are no sheet of their own, as on the stretch of a table that one rule has.
ghost use Rattle.std.specs.Prelude.{◌≡◌, ◌<◌, ◌≤◌, true, List, length, MatchResult};
ghost use Rattle.lattice.specs.Refusals.{number as Number};
ghost use Rattle.kinds.specs.Model.{covers};
ghost use Rattle.sheets.specs.Cover.{union, cover, canonical};
ghost use Rattle.sheets.specs.Maximal.{Lists};
ghost use Rattle.sheets.specs.Slots.{SlotsBecame, SlotsStayed};

use crate::sheet::Sheet;
use kinds::kind::Kind;
use lattice::refusal::Refusal;

// The first `count` slots become their sum with `e`; answers how many slots that takes. Slots and count are the caller's, so
// they come as two and the new count is handed back.
pub fn sum_into<K: Kind>(slots: &mut [K], count: usize, e: K) -> Result<usize, Refusal>
    ensures { MatchResult result (λ n. SlotsBecame K.model count e n slots.old slots.new) (λ why. SlotsStayed K.model count e why slots.old slots.new) }
{
    let mut sheet = Sheet { slots, count };
    sheet.add(e)?;
    Ok(sheet.count())
}
