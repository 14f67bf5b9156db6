// One element for one of the two sheets.

#[derive(Clone, Copy, PartialEq, Eq, Debug)]
pub enum Stroke<M, C> {
    Mark(M),
    Cut(C),
}
