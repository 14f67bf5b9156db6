// Numbers by which rules and places are called for, counted from 1.
ghost use Rattle.std.specs.Prelude.{◌≡◌};
ghost use Rattle.grammar.specs.Numbers.{ordinal as Ordinal};

// A number as it is called for: below 1 it is 0, which is no number of the list, so callers need no second case.
pub fn ordinal(k: i32) -> u32
    ensures { result ≡ Ordinal k }
{
    u32::try_from(k).unwrap_or(0)
}
