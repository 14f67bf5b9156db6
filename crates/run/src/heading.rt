// The first line of a file.
ghost use Rattle.std.specs.Prelude.{◌≡◌, true, take, codes, Decides};

const FIRST_LINE: &[u8; 10] = b"lattice 1\n";

// Whether a file begins with its proper first line.
pub fn opens(file: &[u8]) -> bool
    ensures { Decides result (take 10 file.now ≡ codes "lattice 1\n") }
{
    file.starts_with(FIRST_LINE)
}
