// What is written as a line of its own.
ghost use Rattle.std.specs.Prelude.{◌≡◌, ℕ, List};
ghost use Rattle.output.specs.Lines.{mark_line as MarkLine, cut_line as CutLine, refusal_line as RefusalLine};

use crate::line::Line;
use commands::{Cut, Mark};
use notation::refused::Refused;

// The words of the lines, as byte strings of fixed length: the format is one of bytes, so they are copied as they stand.
const MARK: &[u8; 4] = b"mark";

const CUT: &[u8; 3] = b"cut";

const REFUSED: &[u8; 7] = b"refused";

const LINE: &[u8; 5] = b" line";

pub(crate) trait Inscribed {
    ghost line: { Self → List ℕ };

    // Puts its line together, in place of what stood there.
    fn inscribe(&self, on: &mut Line)
        ensures { on.new ≡ line self.now };
}

// `mark I X Y`
impl Inscribed for Mark {
    ghost line = { MarkLine };

    fn inscribe(&self, on: &mut Line) {
        let point = self.under();
        on.command(MARK, &[i32::from(self.ink()), point.x(), point.y()]);
    }
}

// `cut I X Y P Q`, the lower end first
impl Inscribed for Cut {
    ghost line = { CutLine };

    fn inscribe(&self, on: &mut Line) {
        let segment = self.under();
        let (x, y) = segment.lower();
        let (p, q) = segment.upper();
        on.command(CUT, &[i32::from(self.ink()), x, y, p, q]);
    }
}

// `refused N line L`
impl Inscribed for Refused {
    ghost line = { RefusalLine };

    fn inscribe(&self, on: &mut Line) {
        on.end();
        on.field(i64::from(self.line));
        on.put(LINE);
        on.field(i64::from(self.refusal.number()));
        on.put(REFUSED);
    }
}
