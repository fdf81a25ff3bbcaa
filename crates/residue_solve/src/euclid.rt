//! Euclid's algorithm, extended by a multiplier.

ghost use Rattle.std.specs.Prelude.{◌≡◌, ◌/◌, ◌%◌, ◌<◌, ◌≤◌};
ghost use Rattle.residue_solve.specs.Euclid.{IsBezout};

/// A greatest common divisor, and the multiplier whose product leaves it.
pub(crate) struct Bezout {
    pub gcd: u32,
    pub multiplier: u32,
}

/// Gives the greatest common divisor of `a` and `n`, and a multiplier whose product with `a` leaves it
/// modulo `n`. Takes no memory.
pub(crate) fn extended_gcd(a: u32, n: u32) -> Bezout
    requires some { 0 < n }
    requires small { n ≤ 1000 }
    requires reduced { a < n }
    ensures range { (0 < result.gcd) × (result.gcd ≤ n) }
    ensures divides { IsBezout a n result.gcd result.multiplier }
{
    let mut gcd = n;
    let mut multiplier = 0;
    let mut rest = a;
    let mut next = 1;
    while rest != 0 {
        let (times, left) = divided(gcd, rest);
        (gcd, rest) = (rest, left);
        let (_, after) = divided(multiplier + times * (n - next), n);
        (multiplier, next) = (next, after);
    }
    Bezout { gcd, multiplier }
}

// The quotient and the remainder. A division takes the time of some twenty subtractions, and two in
// five of the quotients in Euclid's algorithm are 1.
fn divided(x: u32, y: u32) -> (u32, u32)
    requires { 0 < y }
    ensures quotient { result.0 ≡ x / y }
    ensures remainder { result.1 ≡ x % y }
{
    if x < y {
        (0, x)
    } else if x - y < y {
        (1, x - y)
    } else {
        (x / y, x % y)
    }
}
