//! Operations carried out in order.
ghost use Rattle.std.specs.Prelude.{◌≡◌, ◌++◌, IfOk, flat_map, length, map, vec_len};
ghost use Rattle.cal_model.specs.Operations.{changes_in, created_id, outcomes, outcomes_of_creates};
ghost use Rattle.cal_model.specs.Sets.{of_each};
ghost use Rattle.spec_json.specs.Data.{Data};
ghost use Rattle.spec_json.specs.TreeData.{pair_of};
ghost use Rattle.object_outcomes.specs.Judging.{IsAllowed, ground_in, operation_in};

use crate::copy::copy_of;
use cal_model::outcome::Outcome;
use cal_model::view::AccountView;
use object_outcomes::created_ids::CreatedIds;
use object_outcomes::judge::{judge, judge_create};
use object_outcomes::operation::Operation;
use object_outcomes::setting::{Judged, Setting};
use spec_json::text::Text;
use spec_json::tree::Member;
use std::alloc::{AllocError, Global};
use time_text::object_id_text;

/// What creates came to.
#[derive(Drop)]
pub(crate) struct Creates {
    pub outcomes: Vec<Outcome>,
    /// The ids that the request has created by then.
    pub ids: CreatedIds,
}

/// What comes of creates, each after those before it and with the ids that they created. Accepted changes are staged
/// (RFC 8620 section 5.3).
pub(crate) fn run_creates<V: AccountView>(
    alloc: Global,
    view: &mut V,
    setting: &Setting<'_>,
    created: CreatedIds,
    creates: &[Member],
) -> Result<Creates, AllocError>
    requires zones { (V.base view.old).zones ≡ setting.now.zones.now }
    ensures outcomes { IfOk result (λ c. c.outcomes.items
        ≡ outcomes_of_creates (ground_in setting.now) setting.now.kind created (V.changes view.old) (map pair_of creates.now)) }
    ensures ids { IfOk result (λ c. c.ids ≡ created ++ of_each created_id (map pair_of creates.now)
        (outcomes_of_creates (ground_in setting.now) setting.now.kind created (V.changes view.old) (map pair_of creates.now))) }
    ensures lengths { IfOk result (λ c. vec_len c.outcomes ≡ length creates.now) }
    ensures changes { IfOk result (λ c. V.changes view.new ≡ V.changes view.old ++ flat_map changes_in c.outcomes.items) }
    ensures entries { V.entries view.new ≡ V.entries view.old }
    ensures base { V.base view.new ≡ V.base view.old }
{
    let mut outcomes = Vec::with_capacity(alloc, creates.len())?;
    let mut ids = created;
    for member in creates {
        let judged = judge_create(alloc, view, setting, &ids, &member.value)?;
        let outcome = staged(view, judged)?;
        ids = noted(alloc, ids, &member.key, &outcome)?;
        outcomes.push(outcome)?;
    }
    Ok(Creates { outcomes, ids })
}

// The ids with that of the object that a create made.
fn noted(
    alloc: Global,
    ids: CreatedIds,
    key: &Text,
    outcome: &Outcome,
) -> Result<CreatedIds, AllocError>
    ensures { IfOk result (λ all. (d : Data) → all ≡ ids ++ created_id (key.now, d) outcome.now) }
{
    match outcome {
        Outcome::Accepted(change) => {
            let id = object_id_text(alloc, change.kind, change.id)?;
            ids.with(alloc, key, id)
        }
        Outcome::Refused(_) => Ok(ids),
    }
}

/// What comes of operations, each after those before it, whose accepted changes are staged (RFC 8620 section 5.3).
pub(crate) fn run<V: AccountView>(
    alloc: Global,
    view: &mut V,
    setting: &Setting<'_>,
    created: &CreatedIds,
    operations: &[Operation<'_>],
) -> Result<Vec<Outcome>, AllocError>
    requires zones { (V.base view.old).zones ≡ setting.now.zones.now }
    ensures outcomes { IfOk result (λ v. v.items
        ≡ outcomes (ground_in setting.now) setting.now.kind created.now (V.changes view.old) (map operation_in operations.now)) }
    ensures lengths { IfOk result (λ v. vec_len v ≡ length operations.now) }
    ensures changes { IfOk result (λ v. V.changes view.new ≡ V.changes view.old ++ flat_map changes_in v.items) }
    ensures entries { V.entries view.new ≡ V.entries view.old }
    ensures base { V.base view.new ≡ V.base view.old }
{
    let mut outcomes = Vec::with_capacity(alloc, operations.len())?;
    for operation in operations {
        let judged = judge(alloc, view, setting, created, operation)?;
        let outcome = staged(view, judged)?;
        outcomes.push(outcome)?;
    }
    Ok(outcomes)
}

// The outcome, whose change is staged where it is accepted.
fn staged<V: AccountView>(view: &mut V, judged: Judged) -> Result<Outcome, AllocError>
    requires { IsAllowed (V.base view.old).zones (V.changes view.old) judged }
    ensures outcome { IfOk result (λ o. o ≡ judged.outcome) }
    ensures changes { IfOk result (λ o. V.changes view.new ≡ V.changes view.old ++ changes_in o) }
    ensures entries { V.entries view.new ≡ V.entries view.old }
    ensures base { V.base view.new ≡ V.base view.old }
{
    let Judged {
        outcome,
        size,
        series,
    } = judged;
    match &outcome {
        Outcome::Accepted(change) => view.stage(copy_of(change)?, size, series)?,
        Outcome::Refused(_) => {}
    }
    Ok(outcome)
}
