// A refusal with the line of the file that brought it about. The line is a plain number, as it is printed: 0 for none.
use lattice::refusal::Refusal;

#[derive(Clone, Copy, PartialEq, Eq, Debug)]
pub struct Refused {
    pub refusal: Refusal,
    pub line: u32,
}
