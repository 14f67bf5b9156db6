// The drawing as lines: marks, then cuts.
ghost use Rattle.std.specs.Prelude.{◌≡◌, ◌+◌, ◌<◌, ◌≤◌, length, MatchOption};
ghost use Rattle.output.specs.Wrote.{Wrote};
ghost use Rattle.output.specs.Lines.{lines as Lines, drawing_text as DrawingText};
ghost use Rattle.output.specs.Shown.{Shown};

use crate::inscribed::Inscribed;
use crate::line::Line;
use commands::{Cut, Mark};
use lattice::refusal::Refusal;

// How many of `room` bytes are left behind the lines of the elements, if they fit.
fn room_after<T: Inscribed>(xs: &[T], room: usize) -> Option<usize>
    ensures { MatchOption result (room < length (Lines T.line xs.now)) (λ n. n + length (Lines T.line xs.now) ≡ room) }
{
    let mut line = Line::new();
    let mut left = room;
    for x in xs {
        x.inscribe(&mut line);
        left = left.checked_sub(line.len())?;
    }
    Some(left)
}

// Writes the lines of the elements at a place where they fit, and answers where they end.
fn write_lines<T: Inscribed>(xs: &[T], out: &mut [u8], from: usize) -> usize
    requires { from + length (Lines T.line xs.now) ≤ length out.old }
    ensures end { result ≡ from + length (Lines T.line xs.now) }
    ensures written { Wrote from result (Lines T.line xs.now) out.old out.new }
{
    let mut line = Line::new();
    let mut at = from;
    for x in xs {
        x.inscribe(&mut line);
        at = line.write(out, at);
    }
    at
}

// Writes the drawing's lines into the front of the buffer and answers how many bytes they are.
pub fn show(marks: &[Mark], cuts: &[Cut], out: &mut [u8]) -> Result<usize, Refusal>
    ensures { Shown (DrawingText marks.now cuts.now) out.old out.new result }
{
    let room = room_after(marks, out.len()).ok_or(Refusal::BufferFull)?;
    room_after(cuts, room).ok_or(Refusal::BufferFull)?;
    let at = write_lines(marks, out, 0);
    Ok(write_lines(cuts, out, at))
}
