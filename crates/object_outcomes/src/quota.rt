//! The room of an account.
ghost use Rattle.std.specs.Prelude.{◌≡◌, IfOk, None, false, true};
ghost use Rattle.cal_model.specs.Fits.{IsObjectFit};
ghost use Rattle.cal_model.specs.Operations.{within_quota};
ghost use Rattle.cal_model.specs.Quota.{size_of_object};
ghost use Rattle.cal_model.specs.Sound.{is_sound};
ghost use Rattle.cal_model.specs.declared.outcome.Outcome.TheVariants.{Accepted};
ghost use Rattle.spec_bookings.specs.SeriesPut.{series_put};
ghost use Rattle.object_outcomes.specs.Judging.{HasNumber, IsAllowed};

use crate::against::Against;
use crate::setting::Judged;
use cal_model::outcome::Outcome;
use cal_model::set_error::SetError;
use cal_model::view::AccountView;
use json_edge::write::tree_text;
use spec_history::entry::Change;
use spec_series::series::Series;
use std::alloc::{AllocError, Global};

/// What comes of a change: it is refused where the account has no room for it or a resource is full, and then where it clashes.
///
/// Where it is accepted, `fit` says that the account may take its object, and `sound` that it would store it again. `series` is that of the
/// event that it puts.
pub(crate) fn within_quota<V: AccountView>(
    alloc: Global,
    view: &V,
    change: Change,
    against: Against,
    series: Option<Series>,
) -> Result<Judged, AllocError>
    requires number { HasNumber (V.changes view.now) change.kind change.id }
    requires fit { against.is_full ≡ false → against.clash ≡ None
        → IsObjectFit (V.base view.now).zones (V.changes view.now) change.kind change.id change.object }
    requires series { series ≡ series_put (V.base view.now).zones change }
    requires sound { within_quota (V.changes view.now) against.is_full against.clash change ≡ Accepted change → is_sound (V.base view.now).zones (V.changes view.now) change ≡ true }
    ensures exact { IfOk result (λ j. j.outcome ≡ within_quota (V.changes view.now) against.is_full against.clash change) }
    ensures allowed { IfOk result (IsAllowed (V.base view.now).zones (V.changes view.now)) }
{
    let size = size_of_change(alloc, &change)?;
    if !view.has_room(&change, size) || against.is_full {
        return Ok(Judged::refused(SetError::OverQuota));
    }
    if let Some((calendar, clash)) = against.clash {
        return Ok(Judged::refused(SetError::Clashes { calendar, clash }));
    }
    Ok(Judged {
        outcome: Outcome::Accepted(change),
        size,
        series,
    })
}

fn size_of_change(alloc: Global, change: &Change) -> Result<usize, AllocError>
    ensures { IfOk result (λ n. n ≡ size_of_object change.now.object) }
{
    match &change.object {
        Some(object) => Ok(tree_text(alloc, object)?.len()),
        None => Ok(0),
    }
}
