//! Sets that are carried out.
ghost use Rattle.std.specs.Prelude.{◌≡◌, ◌++◌, IfOk, List, OnOk, flat_map, length, vec_len, ℕ};
ghost use Rattle.cal_model.specs.SetReply.{set_arguments};
ghost use Rattle.cal_model.specs.Operations.{changes_in};
ghost use Rattle.cal_model.specs.Sets.{new_ids, objects_of, set_changes};
ghost use Rattle.spec_history.specs.States.{state_of};
ghost use Rattle.spec_history.specs.declared.entry.Change.{Change as AnyChange};
ghost use Rattle.object_outcomes.specs.Judging.{ground_in};
ghost use Rattle.set_methods.specs.Telling.{IsCreated};

use crate::arguments::response_arguments;
use crate::created::new_ids;
use crate::named_id::ids_named;
use crate::objects::{creates, destroys, updates};
use crate::operations::{destroy_operations, update_operations};
use crate::planned::Plan;
use crate::run::{Creates, run, run_creates};
use crate::told::Told;
use cal_model::view::AccountView;
use object_outcomes::created_ids::CreatedIds;
use object_outcomes::setting::Setting;
use spec_calls::call::SetArguments;
use spec_history::state::State;
use spec_json::lists::Pairs;
use spec_json::tree::Tree;
use std::alloc::{AllocError, Global};

/// Carries out a set that isn't refused: creates, then updates, then destroys (RFC 8620 section 5.3).
///
/// After running out of memory some changes may be staged.
pub(crate) fn carry_out<V: AccountView>(
    alloc: Global,
    view: &mut V,
    setting: &Setting<'_>,
    arguments: &SetArguments,
    created: &Pairs,
) -> Result<Plan, AllocError>
    requires zones { (V.base view.old).zones ≡ setting.now.zones.now }
    requires generation { (V.base view.old).generation ≡ setting.now.generation }
    ensures arguments { IfOk result (λ p. p.arguments ≡ set_arguments (ground_in setting.now) setting.now.kind created.now (V.changes view.old) (objects_of arguments.now)) }
    ensures created { IfOk result (λ p. p.created ≡ new_ids (ground_in setting.now) setting.now.kind created.now (V.changes view.old) (objects_of arguments.now)) }
    ensures changes { OnOk result (V.changes view.new ≡ V.changes view.old ++ set_changes (ground_in setting.now) setting.now.kind created.now (V.changes view.old) (objects_of arguments.now)) }
    ensures entries { V.entries view.new ≡ V.entries view.old }
    ensures base { V.base view.new ≡ V.base view.old }
{
    let old_state = view.state(setting.kind);
    let made = create_all(alloc, view, setting, arguments, created)?;
    let added = new_ids(alloc, creates(arguments), &made.outcomes)?;
    let told = change_all(alloc, view, setting, arguments, old_state, &made)?;
    Ok(Plan {
        arguments: told,
        created: Pairs::new(added),
    })
}

// Carries out the updates and destroys behind the creates, and gives the arguments of the response.
fn change_all<V: AccountView>(
    alloc: Global,
    view: &mut V,
    setting: &Setting<'_>,
    arguments: &SetArguments,
    old_state: State,
    made: &Creates,
) -> Result<Tree, AllocError>
    requires creates { vec_len made.now.outcomes ≡ length (objects_of arguments.now).creates }
    requires zones { (V.base view.old).zones ≡ setting.now.zones.now }
    requires generation { (V.base view.old).generation ≡ setting.now.generation }
    ensures arguments { IfOk result (λ t. (created : List (List ℕ × List ℕ)) (cs : List AnyChange)
        → IsCreated made.now (ground_in setting.now) setting.now.kind created cs (objects_of arguments.now) → V.changes view.old ≡ cs ++ flat_map changes_in made.now.outcomes.items
        → old_state ≡ state_of setting.now.generation setting.now.kind cs → t ≡ set_arguments (ground_in setting.now) setting.now.kind created cs (objects_of arguments.now)) }
    ensures changes { OnOk result ((created : List (List ℕ × List ℕ)) (cs : List AnyChange)
        → IsCreated made.now (ground_in setting.now) setting.now.kind created cs (objects_of arguments.now) → V.changes view.old ≡ cs ++ flat_map changes_in made.now.outcomes.items
        → V.changes view.new ≡ cs ++ set_changes (ground_in setting.now) setting.now.kind created cs (objects_of arguments.now)) }
    ensures entries { V.entries view.new ≡ V.entries view.old }
    ensures base { V.base view.new ≡ V.base view.old }
{
    let named = ids_named(alloc, &made.ids, destroys(arguments))?;
    let to_update = update_operations(alloc, &made.ids, &named, updates(arguments))?;
    let changed = run(alloc, view, setting, &made.ids, &to_update)?;
    let to_destroy = destroy_operations(alloc, &named)?;
    let removed = run(alloc, view, setting, &made.ids, &to_destroy)?;
    let told = Told {
        account: setting.account,
        old_state,
        new_state: view.state(setting.kind),
        creates: creates(arguments),
        create_outcomes: &made.outcomes,
        updates: updates(arguments),
        update_outcomes: &changed,
        destroys: &named,
        destroy_outcomes: &removed,
    };
    Ok(response_arguments(alloc, &told)?)
}

// What comes of the creates, where the request has created these ids before.
fn create_all<V: AccountView>(
    alloc: Global,
    view: &mut V,
    setting: &Setting<'_>,
    arguments: &SetArguments,
    created: &Pairs,
) -> Result<Creates, AllocError>
    requires zones { (V.base view.old).zones ≡ setting.now.zones.now }
    ensures created { IfOk result (λ c. IsCreated c (ground_in setting.now) setting.now.kind created.now (V.changes view.old) (objects_of arguments.now)) }
    ensures lengths { IfOk result (λ c. vec_len c.outcomes ≡ length (objects_of arguments.now).creates) }
    ensures changes { IfOk result (λ c. V.changes view.new ≡ V.changes view.old ++ flat_map changes_in c.outcomes.items) }
    ensures entries { V.entries view.new ≡ V.entries view.old }
    ensures base { V.base view.new ≡ V.base view.old }
{
    let before = CreatedIds::of(alloc, created.pairs())?;
    run_creates(alloc, view, setting, before, creates(arguments))
}
