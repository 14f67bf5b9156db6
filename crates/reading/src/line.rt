// A line as it stands in the file: its bytes without the byte 10 at its end, its number, and whether it has that byte. The
// last line may lack it and has bytes and a number all the same, so a flag stands beside these; `whole` asks for both.
ghost use Rattle.std.specs.Prelude.{◌≡◌, false, true, MatchOption};

#[derive(Clone, Copy, PartialEq, Eq, Debug)]
pub struct Line<'a> {
    pub text: &'a [u8],
    pub number: u32,
    pub ended: bool,
}

impl<'a> Line<'a> {
    // The bytes of a line that a byte 10 ends.
    pub fn whole(&self) -> Option<&'a [u8]>
        ensures { MatchOption result (self.now.ended ≡ false) (λ text. (self.now.ended ≡ true) × (text.now ≡ self.now.text.now)) }
    {
        self.ended.then_some(self.text)
    }
}
