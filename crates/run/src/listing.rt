// A file's first line, its contents, and whether the lengths in them are those of the bytes behind.
ghost use Rattle.std.specs.Prelude.{◌≡◌, ◌≤◌, Err};
ghost use Rattle.run.specs.Openings.{OpensGrammar, not_a_grammar as NotAGrammar};

use crate::heading::opens;
use lattice::refusal::Refusal;
use notation::contents::Contents;
use notation::refused::Refused;
use parsing::listing::read_contents;
pub use reading::lines::LONGEST;
use reading::reader::Reader;

// A file, its contents, and where its first body begins.
#[derive(Clone, Copy, PartialEq, Eq, Debug)]
pub struct Listing<'a> {
    pub file: &'a [u8],
    pub contents: Contents,
    pub bodies: usize,
}

impl<'a> Listing<'a> {
    // Where the start ends and the first rule begins.
    pub(crate) fn rules_from(&self) -> usize {
        self.bodies.saturating_add(self.contents.start as usize)
    }

    // Where the steps begin, which are the last of the file.
    pub(crate) fn steps_from(&self) -> usize {
        self.file.len().saturating_sub(self.contents.steps as usize)
    }
}

// How many bytes the bodies have together.
fn total(contents: &Contents) -> u64 {
    let ends = u64::from(contents.start) + u64::from(contents.steps);
    contents
        .rules()
        .iter()
        .fold(ends, |sum, &n| sum.saturating_add(u64::from(n)))
}

// The file's listing, or the refusal of a file that has none.
pub fn read_listing(file: &[u8]) -> Result<Listing<'_>, Refused>
    ensures { (OpensGrammar file.now → ⊥) → result ≡ Err NotAGrammar }
{
    if file.len() > LONGEST || !opens(file) {
        return Err(Refused {
            refusal: Refusal::NotAGrammar,
            line: 1,
        });
    }
    let mut reader = Reader::new(file);
    let _ = reader.next_line();
    let contents = read_contents(&mut reader)?;
    let left = reader.rest().len();
    if total(&contents) != left as u64 {
        return Err(Refused {
            refusal: Refusal::BadLengths,
            line: reader.line().saturating_sub(1),
        });
    }
    Ok(Listing {
        file,
        contents,
        bodies: file.len().saturating_sub(left),
    })
}
