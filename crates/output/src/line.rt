// A line that is put together in memory of its own, on the stack, before it goes into the caller's buffer: so its length is
// known before a byte of the buffer changes. It is a word, then numbers with a space before each, then the byte 10. It is
// put together from its end to its front, as the digits of a number come, so that they need no memory of their own.
ghost use Rattle.std.specs.Prelude.{◌≡◌, ◌+◌, ◌*◌, ◌<◌, ◌≤◌, [], ◌∷◌, ◌++◌, length};
ghost use Rattle.std.specs.Fmt.{signed_decimal};
ghost use Rattle.notation.specs.Commands.{command_line};
ghost use Rattle.output.specs.Wrote.{Wrote};

use itoa::write_digits;
use std::marker::Model;

// The most bytes that a line has. They are those of a cut: 3 letters, 5 numbers of up to 12 bytes with the space before each,
// and the end.
pub const LONGEST_LINE: usize = 64;

// Its bytes so far end where the memory ends. One is lent for all lines of a drawing, since one that is handed out is copied.
#[derive(Drop)]
pub(crate) struct Line {
    bytes: [u8; LONGEST_LINE],
    start: usize,
}

// A contract sees the bytes.
impl Model for Line {
    ghost use Rattle.std.specs.Prelude.{ℕ, ◌≤◌, List, drop};

    ghost Value = { List ℕ };

    ghost view = { λ l. drop l.start l.bytes };

    ghost invariant = { λ l. l.start ≤ 64 };
}

impl Line {
    // A line with no byte yet.
    pub(crate) fn new() -> Line
        ensures { result ≡ [] }
    {
        Line {
            bytes: [0; LONGEST_LINE],
            start: LONGEST_LINE,
        }
    }

    // Takes all bytes out.
    fn clear(&mut self)
        ensures { self.new ≡ [] }
    {
        self.start = LONGEST_LINE;
    }

    // The end of a line in place of what stood there.
    pub(crate) fn end(&mut self)
        ensures { self.new ≡ 10 ∷ [] }
    {
        self.clear();
        self.put(b"\n");
    }

    // Puts bytes before the others, where there is room for them.
    pub(crate) fn put(&mut self, bytes: &[u8])
        requires { length bytes.now + length self.old ≤ LONGEST_LINE }
        ensures { self.new ≡ bytes.now ++ self.old }
    {
        let start = self.start - bytes.len();
        self.bytes[start..self.start].copy_from_slice(bytes);
        self.start = start;
    }

    // Puts a space and a number before the others, where there is room for them.
    pub(crate) fn field(&mut self, number: i64)
        requires { length (32 ∷ signed_decimal number) + length self.old ≤ LONGEST_LINE }
        ensures { self.new ≡ (32 ∷ signed_decimal number) ++ self.old }
    {
        self.start = write_digits(number.unsigned_abs(), &mut self.bytes, self.start);
        if number < 0 {
            self.put(b"-");
        }
        self.put(b" ");
    }

    // The line of a command in place of what stood there: its word, and its numbers.
    pub(crate) fn command(&mut self, word: &[u8], numbers: &[i32])
        requires { length word.now + 12 * length numbers.now < LONGEST_LINE }
        ensures { self.new ≡ command_line word.now numbers.now }
    {
        self.end();
        for &number in numbers.iter().rev() {
            self.field(i64::from(number));
        }
        self.put(word);
    }

    // How many bytes it has.
    pub(crate) fn len(&self) -> usize
        ensures value { result ≡ length self.now }
        ensures few { result ≤ LONGEST_LINE }
    {
        LONGEST_LINE - self.start
    }

    // Writes it into a buffer at a place where it fits, and answers where it ends.
    pub(crate) fn write(&self, out: &mut [u8], at: usize) -> usize
        requires { at + length self.now ≤ length out.old }
        ensures end { result ≡ at + length self.now }
        ensures written { Wrote at result self.now out.old out.new }
    {
        let end = at + self.len();
        out[at..end].copy_from_slice(&self.bytes[self.start..]);
        end
    }
}
