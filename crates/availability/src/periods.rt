//! Periods, and their runs.
ghost use Rattle.std.specs.Prelude.{◌≡◌, ◌++◌, ◌∷◌, ◌-ℤ◌, ℤ, int_le, int_lt, pos, true, IfOk, List};
ghost use Rattle.availability.specs.Merging.{are_inside, common, hull, joined_from, joined_periods};
ghost use Rattle.spec_windows.specs.BusyPeriods.{are_runs, is_busy};
ghost use Rattle.spec_windows.specs.declared.period.Period.{Period};

use spec_windows::period::Period;
use std::alloc::{AllocError, Global};

// Both periods and what is between them.
fn hull_of(p: Period, q: Period) -> Period
    ensures { result ≡ hull p q }
{
    Period {
        from: p.from.min(q.from),
        to: p.to.max(q.to),
    }
}

// Whether a period ends before another begins, so that an instant lies between them.
fn ends_before(p: Period, q: Period) -> bool
    ensures { result ≡ int_lt p.to q.from }
{
    p.to < q.from
}

// Joins the last period with the one that comes, or adds it to the runs; gives what is the last one then.
#[tactic(auto, unfolding(crate::specs::Merging::joined_from))]
fn join_next(runs: &mut Vec<Period>, last: Period, span: Period) -> Result<Period, AllocError>
    ensures { IfOk result (λ next. (rest : List Period) → runs.new.items ++ joined_from next rest ≡ runs.old.items ++ joined_from last (span ∷ rest)) }
{
    if ends_before(last, span) {
        runs.push(last)?;
        return Ok(span);
    }
    Ok(hull_of(last, span))
}

// Joins periods in the order of their starts.
#[tactic(auto, unfolding(crate::specs::Merging::joined_from))]
fn joined(alloc: Global, spans: &[Period]) -> Result<Vec<Period>, AllocError>
    ensures { IfOk result (λ ps. ps.items ≡ joined_periods spans.now) }
{
    let mut runs = Vec::new(alloc);
    let Some((first, others)) = spans.split_first() else {
        return Ok(runs);
    };
    let mut last = *first;
    for span in others {
        last = join_next(&mut runs, last, *span)?;
    }
    runs.push(last)?;
    Ok(runs)
}

/// The maximal runs of the instants that some of these periods cover, in order. Takes memory for them.
pub(crate) fn runs_of(alloc: Global, spans: Vec<Period>) -> Result<Vec<Period>, AllocError>
    ensures busy { IfOk result (λ ps. (u : ℤ) → is_busy ps.items u ≡ is_busy spans.items u) }
    ensures runs { IfOk result (λ ps. (w : Period) → are_inside w spans.items ≡ true → are_runs (w.from -ℤ pos 1) w.to ps.items ≡ true) }
{
    let mut spans = spans;
    spans.sort_by_key(|span| span.from)?;
    joined(alloc, &spans)
}

/// What two periods have in common.
pub(crate) fn common_of(p: Period, q: Period) -> Period
    ensures { result ≡ common p q }
{
    Period {
        from: p.from.max(q.from),
        to: p.to.min(q.to),
    }
}

/// Whether a period has no instant.
pub(crate) fn is_empty(p: Period) -> bool
    ensures { result ≡ int_le p.to p.from }
{
    p.to <= p.from
}
