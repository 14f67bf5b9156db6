// The contents of a file, read line by line.
ghost use Rattle.std.specs.Prelude.{◌≡◌};
ghost use Rattle.lattice.specs.Refusals.{number as Number};
ghost use Rattle.parsing.specs.Listing.{EntryTaken, ContentsRead};

use crate::entries::read_entry;
use lattice::refusal::Refusal;
use notation::contents::Contents;
use notation::refused::Refused;
use reading::line::Line;
use reading::reader::Reader;

// The refusal of contents that break their form in a line.
fn broken(line: u32) -> Refused
    ensures refusal { Number result.refusal ≡ 2 }
    ensures line { result.line ≡ line }
{
    Refused {
        refusal: Refusal::BadContents,
        line,
    }
}

// Puts what a line says on the contents, if a byte 10 ends it and it may come next.
fn take_entry(contents: &mut Contents, line: Line) -> Result<(), Refused>
    ensures { EntryTaken contents.old contents.new line.entry result }
{
    let entry = line
        .whole()
        .and_then(read_entry)
        .ok_or(broken(line.number))?;
    if contents.admit(entry) {
        Ok(())
    } else {
        Err(broken(line.number))
    }
}

// The contents, up to and with their line `body`. Where no line is left, the last one that was begun is at fault.
pub fn read_contents(reader: &mut Reader) -> Result<Contents, Refused>
    ensures { ContentsRead reader.old reader.new result }
{
    let mut contents = Contents::new();
    while !contents.is_whole() {
        let last = reader.line().saturating_sub(1);
        let line = reader.next_line().ok_or(broken(last))?;
        take_entry(&mut contents, line)?;
    }
    Ok(contents)
}
