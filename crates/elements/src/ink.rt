// Ink: a number from 0 to 255 on an element of any kind, and so on its atoms and its carrier.

pub mod kind;
pub mod make;

#[derive(Clone, Copy, PartialEq, Eq, Debug)]
pub struct Ink<K> {
    pub ink: u8,
    pub under: K,
}

// Ink on an atom or on a carrier.
pub type Inked<C> = Ink<C>;
