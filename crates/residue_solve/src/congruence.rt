//! Linear congruences: the solutions of one, of two together, and the least of these.

ghost use Rattle.std.specs.Prelude.{◌≡◌, ◌<◌, ◌≤◌, ◌^◌, ◌↔◌, ℤ, pos, ◌+ℤ◌, ◌*ℤ◌, ◌<ℤ◌, unsigned_abs, IfSome, IfNone};
ghost use Rattle.residue_solve.specs.Congruence.{Congruent};
ghost use Rattle.residue_solve.specs.Cong.{Solves, SolvesBoth, IsInRange};
ghost use Rattle.residue_solve.specs.ResidueClass.{IsIn};
ghost use Rattle.residue_solve.specs.Least.{IsLeastFrom};

use crate::euclid::{Bezout, extended_gcd};
use crate::residue_class::ResidueClass;

/// The congruence `a * q = b modulo n` on a whole number q.
#[derive(Clone, Copy, PartialEq, Eq, Debug)]
pub struct Cong {
    pub a: i64,
    pub b: i64,
    pub n: u32,
}

/// Gives the least whole number at or after `from` that solves both congruences, or None where no
/// whole number solves both. Takes no memory.
pub fn least(first: Cong, second: Cong, from: i128) -> Option<i128>
    requires first { IsInRange first }
    requires second { IsInRange second }
    requires from { unsigned_abs from < 2 ^ 60 }
    ensures none { IfNone result ((q : ℤ) → ¬ SolvesBoth first second q) }
    ensures least { IfSome result (IsLeastFrom from (SolvesBoth first second)) }
    // Callers add to the answer, and need a bound.
    ensures near { IfSome result (λ q. q <ℤ (from +ℤ pos 1000000)) }
{
    let solutions = common_solutions(first, second)?;
    Some(solutions.next_from(from))
}

// The solutions of both congruences.
fn common_solutions(first: Cong, second: Cong) -> Option<ResidueClass>
    requires first { IsInRange first }
    requires second { IsInRange second }
    ensures none { IfNone result ((q : ℤ) → ¬ SolvesBoth first second q) }
    ensures some { IfSome result (λ class. (q : ℤ) → SolvesBoth first second q ↔ IsIn class q) }
    ensures small { IfSome result (λ class. class.modulus ≤ 1000000) }
{
    let class = solutions(first)?;
    let turns = solutions(substituted(second, class))?;
    Some(ResidueClass {
        residue: class.residue + class.modulus * turns.residue,
        modulus: class.modulus * turns.modulus,
    })
}

// The congruence on k that says that the number residue + k * modulus of the class solves `c`.
fn substituted(c: Cong, class: ResidueClass) -> Cong
    requires range { IsInRange c }
    requires small { class.modulus ≤ 1000 }
    ensures same { (k : ℤ) → Solves result k ↔ Solves c (pos class.residue +ℤ k *ℤ pos class.modulus) }
    ensures modulus { result.n ≡ c.n }
{
    Cong {
        a: c.a * i64::from(class.modulus),
        b: c.b - c.a * i64::from(class.residue),
        n: c.n,
    }
}

// The solutions of one congruence.
fn solutions(c: Cong) -> Option<ResidueClass>
    requires some { 0 < c.n }
    requires small { c.n ≤ 1000 }
    ensures none { IfNone result ((q : ℤ) → ¬ Solves c q) }
    ensures some { IfSome result (λ class. (q : ℤ) → Solves c q ↔ IsIn class q) }
    ensures small { IfSome result (λ class. class.modulus ≤ 1000) }
{
    let a = reduced(c.a, c.n);
    let b = reduced(c.b, c.n);
    let Bezout { gcd, multiplier } = extended_gcd(a, c.n);
    if b % gcd != 0 {
        return None;
    }
    let modulus = c.n / gcd;
    Some(ResidueClass {
        residue: b / gcd * multiplier % modulus,
        modulus,
    })
}

// The number below `n` that agrees with `x` modulo `n`.
fn reduced(x: i64, n: u32) -> u32
    requires { 0 < n }
    ensures below { result < n }
    ensures same { Congruent (pos n) x (pos result) }
{
    x.rem_euclid(i64::from(n)) as u32
}
