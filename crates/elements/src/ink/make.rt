// Ink from its number, and back.
ghost use Rattle.std.specs.Prelude.{◌≡◌};
ghost use Rattle.elements.specs.Inks.{InkMade};

use crate::ink::Ink;
use lattice::refusal::Refusal;

impl<K: Copy> Ink<K> {
    // An element with ink on it; refused unless the ink is one from 0 to 255.
    pub fn new(ink: i32, under: K) -> Result<Ink<K>, Refusal>
        ensures { InkMade ink under result }
    {
        let ink = u8::try_from(ink).map_err(|_| Refusal::OutOfRange)?;
        Ok(Ink { ink, under })
    }

    pub fn ink(&self) -> u8
        ensures { result ≡ self.now.ink }
    {
        self.ink
    }

    // The element without its ink.
    pub fn under(&self) -> K
        ensures { result ≡ self.now.under }
    {
        self.under
    }
}
