// Fields of a line: parts of its bytes, with one space between each two.
ghost use Rattle.std.specs.Prelude.{Decides};
ghost use Rattle.notation.specs.Words.{Field};
ghost use Rattle.reading.specs.Fields.{Takes, Two, Three, Five};

use crate::parts::up_to;

// Whether the bytes are one field.
pub fn is_field(bytes: &[u8]) -> bool
    ensures { Decides result (Field bytes.now) }
{
    !bytes.is_empty() && up_to(b' ', bytes) == bytes.len()
}

// The field in front and what stands behind the space after it.
pub fn take_field<'a>(bytes: &'a [u8]) -> Option<(&'a [u8], &'a [u8])>
    ensures { Takes bytes.now result }
{
    let n = up_to(b' ', bytes);
    if n == 0 || n == bytes.len() {
        return None;
    }
    Some((&bytes[..n], &bytes[n + 1..]))
}

// Two, three and five fields are told by a function each, and not by one for any number of them: the answer of that one
// would be an array of references whose length is a parameter, which the checker does not cover.

// The bytes as two fields.
pub fn two_fields<'a>(bytes: &'a [u8]) -> Option<(&'a [u8], &'a [u8])>
    ensures { Two bytes.now result }
{
    let (a, rest) = take_field(bytes)?;
    is_field(rest).then_some((a, rest))
}

// The bytes as three fields.
pub fn three_fields<'a>(bytes: &'a [u8]) -> Option<(&'a [u8], &'a [u8], &'a [u8])>
    ensures { Three bytes.now result }
{
    let (a, rest) = take_field(bytes)?;
    let (b, c) = two_fields(rest)?;
    Some((a, b, c))
}

// The bytes as five fields.
pub fn five_fields<'a>(
    bytes: &'a [u8],
) -> Option<(&'a [u8], &'a [u8], &'a [u8], &'a [u8], &'a [u8])>
    ensures { Five bytes.now result }
{
    let (a, rest) = take_field(bytes)?;
    let (b, rest) = take_field(rest)?;
    let (c, d, e) = three_fields(rest)?;
    Some((a, b, c, d, e))
}
