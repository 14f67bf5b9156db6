// The edge from (-3, -1) to (-1, 0), inked twice.
ghost use Rattle.std.specs.Prelude.{◌≡◌, ◌<◌, pos, negsuc, None, MatchOption, ◌≢◌};
ghost use Rattle.elements.specs.Inks.{inked as Inking};
ghost use Rattle.element_trials.specs.Worked.{twice_inked as TwiceInked};

use elements::ink::Ink;
use kinds::kind::Kind;
use segments::segment::Segment;

// Its line is (2, 1, 1), and it stands there at -2: -3 divided by 2 is rounded down.
pub fn worked_edge(inner: u8, outer: u8) -> Option<Ink<Ink<Segment>>>
    ensures { MatchOption result ⊥ (λ e. (TwiceInked.carrier e ≡ Inking outer (Inking inner (pos 2, pos 1, pos 1))) × (TwiceInked.start e ≡ negsuc 1) × (TwiceInked.end e ≡ negsuc 0)) }
{
    // Each refusal has an `else`: with `?` on `.ok()` the proof that no refusal comes stays open.
    let Ok(edge) = Segment::new(-1, 0, -3, -1) else {
        return None;
    };
    let Ok(once) = Ink::new(i32::from(inner), edge) else {
        return None;
    };
    let Ok(twice) = Ink::new(i32::from(outer), once) else {
        return None;
    };
    Some(twice)
}

// Elements of different ink have no join, whatever is under the ink.
pub fn joined(d: Ink<Ink<Segment>>, e: Ink<Ink<Segment>>) -> Option<Ink<Ink<Segment>>>
    ensures outer { (d.ink ≢ e.ink) → result ≡ None }
    ensures inner { (d.under.ink ≢ e.under.ink) → result ≡ None }
{
    d.join(e)
}
