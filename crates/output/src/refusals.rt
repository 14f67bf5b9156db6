// The line that tells of a refusal: `refused N line L`.
ghost use Rattle.std.specs.Prelude.{◌≤◌, length, IsOk};
ghost use Rattle.output.specs.Lines.{refusal_line as RefusalLine};
ghost use Rattle.output.specs.Shown.{Shown};

use crate::inscribed::Inscribed;
pub use crate::line::LONGEST_LINE;
use crate::line::Line;
use lattice::refusal::Refusal;
use notation::refused::Refused;

// Writes the line into the front of the buffer and answers how many bytes it has, which are no more than those of the
// longest line.
pub fn refusal_line(refused: Refused, out: &mut [u8]) -> Result<usize, Refusal>
    ensures shown { Shown (RefusalLine refused) out.old out.new result }
    ensures short { LONGEST_LINE ≤ length out.old → IsOk result }
{
    let mut line = Line::new();
    refused.inscribe(&mut line);
    if line.len() > out.len() {
        return Err(Refusal::BufferFull);
    }
    Ok(line.write(out, 0))
}
