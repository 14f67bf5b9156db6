// A reader walks over bytes that are lent to it, copies none of them, and knows on which line it stands.
ghost use Rattle.std.specs.Prelude.{◌≡◌, ◌+◌, ◌≤◌, length, take};
ghost use Rattle.notation.specs.Lines.{newlines};

// `text` is a file or a stretch of one, which begins in the file's line `first`.
#[derive(Drop)]
pub struct Reader<'a> {
    pub(crate) text: &'a [u8],
    pub(crate) at: usize,
    pub(crate) first: u32,
    pub(crate) line: u32,
    ghost within: { at ≤ length text.now },
    ghost short: { length text.now ≤ 65536 },
    ghost early: { first ≤ 65537 },
    ghost counted: { line ≡ first + newlines (take at text.now) },
}
