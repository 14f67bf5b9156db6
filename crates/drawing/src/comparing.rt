// Two drawings compared: whether they cover the same, and what follows from that.
ghost use Rattle.drawing.specs.PlacesFollow.{PlacesFollowCover};

use crate::drawing::Drawing;
use kinds::kind::Kind;

impl<'a, 'b, 'c, M: Kind, C: Kind> Drawing<'a, 'b, 'c, M, C> {
    // Whether the two drawings cover the same. Then their rules have the same places under the same numbers, whatever led
    // there, if the rules' sides cover the same too.
    pub fn same_cover(&self, other: &Drawing<M, C>) -> bool
        ensures { PlacesFollowCover M.Kind.model C.Kind.model result self.now other.now }
    {
        self.marks.same(&other.marks) && self.cuts.same(&other.cuts)
    }
}
