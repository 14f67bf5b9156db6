// Bytes up to the first one of a value, where a field or a line ends.
ghost use Rattle.std.specs.Prelude.{◌≡◌, ◌≤◌, length};
ghost use Rattle.reading.specs.Parts.{length_before};

// How many bytes stand before the first one of a value, or all of them.
pub(crate) fn up_to(byte: u8, bytes: &[u8]) -> usize
    ensures value { result ≡ length_before byte bytes.now }
    ensures within { result ≤ length bytes.now }
{
    bytes.iter().position(|b| *b == byte).unwrap_or(bytes.len())
}
