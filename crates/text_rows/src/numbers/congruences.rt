//! Rows of two congruences.
ghost use Rattle.std.specs.Prelude.{IfSome};
ghost use Rattle.residue_solve.specs.Cong.{IsInRange};

use residue_solve::{Cong, least};
use spec_json::tree::Tree;
use std::alloc::{AllocError, Global};

/// The end of the sizes of `a` and `b` that the solver takes.
const SIZES: u64 = 1 << 40;

/// The greatest `n` that it takes.
const MOST: u32 = 1000;

/// The end of the sizes of numbers to begin from that it takes.
const FARTHEST: u128 = 1 << 60;

/// The least number from `from` on that solves both congruences, each a list of its `a`, `b` and `n`, or `none`.
pub fn least_text(
    alloc: Global,
    congruences: &[Tree],
    asked: &Tree,
) -> Result<Option<String>, AllocError> {
    let [first, second] = congruences else {
        return Ok(None);
    };
    let (Some(first), Some(second)) = (cong_in(first), cong_in(second)) else {
        return Ok(None);
    };
    let Some(from) = asked.number_at("from") else {
        return Ok(None);
    };
    let from = from.get();
    if from.unsigned_abs() >= FARTHEST {
        return Ok(None);
    }
    match least(first, second, from) {
        Some(number) => Ok(Some(format!(in alloc; "{number}")?)),
        None => Ok(Some(String::from_str(alloc, "none")?)),
    }
}

fn cong_in(parts: &Tree) -> Option<Cong>
    ensures { IfSome result (λ cong. IsInRange cong) }
{
    let [a, b, n] = parts.as_list()? else {
        return None;
    };
    let a = i64::try_from(a.as_whole()?.get()).ok()?;
    let b = i64::try_from(b.as_whole()?.get()).ok()?;
    let n = u32::try_from(n.as_whole()?.get()).ok()?;
    if a.unsigned_abs() >= SIZES || b.unsigned_abs() >= SIZES || n == 0 || n > MOST {
        return None;
    }
    Some(Cong { a, b, n })
}
