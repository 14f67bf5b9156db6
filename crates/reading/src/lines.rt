// Opening a reader, and taking a file apart into lines.
ghost use Rattle.std.specs.Prelude.{◌≡◌, ◌+◌, ◌≤◌, length, take};
ghost use Rattle.notation.specs.Lines.{newlines};
ghost use Rattle.reading.specs.Readers.{rest as Rest, Opens, NextLine};

use crate::line::Line;
use crate::parts::up_to;
use crate::reader::Reader;

// The greatest number of bytes that a file may have.
pub const LONGEST: usize = 65536;

// The first bytes of a slice, as many as there are up to a number.
fn at_most(bytes: &[u8], most: usize) -> &[u8]
    ensures value { result.now ≡ take most bytes.now }
    ensures few { length result.now ≤ most }
{
    &bytes[..bytes.len().min(most)]
}

// How many lines end in the bytes.
fn ends(bytes: &[u8]) -> u32
    requires { length bytes.now ≤ 65536 }
    ensures value { result ≡ newlines bytes.now }
    ensures few { result ≤ 65536 }
{
    bytes.iter().map(|b| u32::from(*b == b'\n')).sum()
}

impl<'a> Reader<'a> {
    // A reader at the front of a file, of which it reads no more than the longest file has.
    pub fn new(file: &'a [u8]) -> Reader<'a>
        ensures { Opens (take 65536 file.now) 0 65536 result }
    {
        Reader::part(file, 0, LONGEST)
    }

    // A reader over a stretch from the middle of a file: the bytes from `from` up to `to`, as far as the file has them.
    pub fn part(file: &'a [u8], from: usize, to: usize) -> Reader<'a>
        ensures { Opens (take 65536 file.now) from to result }
    {
        let file = at_most(file, LONGEST);
        let from = from.min(file.len());
        let to = to.clamp(from, file.len());
        let first = 1 + ends(&file[..from]);
        Reader {
            text: &file[from..to],
            at: 0,
            first,
            line: first,
        }
    }

    // The bytes that are still to be read.
    pub fn rest(&self) -> &'a [u8]
        ensures value { result.now ≡ Rest self.now }
        ensures len { length result.now + self.now.at ≡ length self.now.text.now }
    {
        &self.text[self.at..]
    }

    // The number of the line at which the reader stands.
    pub fn line(&self) -> u32
        ensures { result ≡ self.now.line }
    {
        self.line
    }

    // The next line, if a byte is left.
    pub fn next_line(&mut self) -> Option<Line<'a>>
        ensures { NextLine self.old self.new result }
    {
        let rest = self.rest();
        if rest.is_empty() {
            return None;
        }
        let length = up_to(b'\n', rest);
        let ended = length < rest.len();
        let line = Line {
            text: &rest[..length],
            number: self.line,
            ended,
        };
        self.at += length + usize::from(ended);
        self.line += u32::from(ended);
        Some(line)
    }
}
