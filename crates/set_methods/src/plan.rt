//! Plans.
ghost use Rattle.std.specs.Prelude.{◌≡◌, ◌++◌, None, IfErr, IfOk, OnErr, OnOk};
ghost use Rattle.cal_model.specs.SetReply.{set_arguments};
ghost use Rattle.cal_model.specs.Sets.{new_ids, objects_of, set_changes, set_refusal};
ghost use Rattle.spec_history.specs.History.{changes_of};
ghost use Rattle.set_methods.specs.Reports.{Reports};
ghost use Rattle.set_methods.specs.Grounds.{ground_at};

use crate::carry_out::carry_out;
use crate::planned::{Plan, PlanError};
use crate::refusal::refusal;
use cal_model::view::AccountView;
use object_outcomes::setting::Setting;
use spec_calls::call::SetArguments;
use spec_json::lists::Pairs;
use spec_json::text::Text;
use spec_time::moment::Moment;
use std::alloc::Global;
use zone_table::Zones;

/// Carries a set out on a view with nothing staged: creates, then updates, then destroys, each judged at the history and what was staged before it
/// (RFC 8620 section 5.3).
///
/// The accepted changes are then staged. `Method` tells why the call is refused as a whole. Takes memory for the changes and
/// the response.
pub fn plan<V: AccountView>(
    alloc: Global,
    view: &mut V,
    zones: &Zones,
    account: &Text,
    moment: Moment,
    arguments: &SetArguments,
    created: &Pairs,
) -> Result<Plan, PlanError>
    requires staged { V.changes view.old ≡ changes_of (V.entries view.old) }
    requires zones { zones.now ≡ (V.base view.old).zones }
    requires account { account.now ≡ (V.base view.old).account_id }
    ensures carried_out { OnOk result (set_refusal (V.base view.old).generation arguments.now.kind (changes_of (V.entries view.old)) (objects_of arguments.now) arguments.now.if_in_state arguments.now.remove_events ≡ None) }
    ensures arguments { IfOk result (λ p. p.arguments
        ≡ set_arguments (ground_at (V.base view.old) moment) arguments.now.kind created.now (changes_of (V.entries view.old)) (objects_of arguments.now)) }
    ensures created { IfOk result (λ p. p.created
        ≡ new_ids (ground_at (V.base view.old) moment) arguments.now.kind created.now (changes_of (V.entries view.old)) (objects_of arguments.now)) }
    ensures changes { OnOk result (V.changes view.new
        ≡ changes_of (V.entries view.old) ++ set_changes (ground_at (V.base view.old) moment) arguments.now.kind created.now (changes_of (V.entries view.old)) (objects_of arguments.now)) }
    ensures refused { IfErr result (λ e. Reports e (set_refusal (V.base view.old).generation arguments.now.kind (changes_of (V.entries view.old)) (objects_of arguments.now) arguments.now.if_in_state arguments.now.remove_events)) }
    ensures forgotten { OnErr result (V.changes view.new ≡ changes_of (V.entries view.old)) }
    ensures entries { V.entries view.new ≡ V.entries view.old }
    ensures base { V.base view.new ≡ V.base view.old }
{
    if let Some(error) = refusal(alloc, view, arguments)? {
        return Err(PlanError::Method(error));
    }
    let setting = Setting {
        kind: arguments.kind,
        account,
        zones,
        generation: view.generation(),
        moment,
    };
    match carry_out(alloc, view, &setting, arguments, created) {
        Ok(plan) => Ok(plan),
        Err(_) => {
            view.forget();
            Err(PlanError::NoMemory)
        }
    }
}
