// Whole numbers: the greatest common divisor.
#![tactic(auto)]

ghost use Rattle.std.specs.Prelude.{◌≡◌, ℕ};
ghost use Rattle.std.specs.Int.{◌∣◌};
ghost use Rattle.numbers.specs.Gcd.{gcd as GreatestCommonDivisor};

// The greatest common divisor, by Euclid's division.
pub fn gcd(mut a: u32, mut b: u32) -> u32
    ensures value { result ≡ GreatestCommonDivisor a b }
    ensures left { result ∣ a }
    ensures right { result ∣ b }
    ensures greatest { (d : ℕ) → d ∣ a → d ∣ b → d ∣ result }
{
    while b != 0 {
        let r = a % b;
        a = b;
        b = r;
    }
    a
}
