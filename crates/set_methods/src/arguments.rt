//! The arguments of the response to a set.
ghost use Rattle.std.specs.Prelude.{◌≡◌, ◌∷◌, [], IfOk, List, codes, length, map, ℕ};
ghost use Rattle.cal_model.specs.Operations.{Ground};
ghost use Rattle.cal_model.specs.SetReply.{created_member, destroyed_item, list_or_null, object_or_null, refused_member, set_arguments, updated_member};
ghost use Rattle.cal_model.specs.Sets.{Objects, of_each};
ghost use Rattle.spec_history.specs.declared.entry.Change.{Change as AnyChange};
ghost use Rattle.spec_history.specs.declared.entry.Kind.{Kind as AnyKind};
ghost use Rattle.spec_history.specs.States.{state_text};
ghost use Rattle.spec_json.specs.Data.{text};
ghost use Rattle.spec_json.specs.TreeData.{keyed, pair_of};
ghost use Rattle.set_methods.specs.Telling.{Tells};

use crate::changed::{destroyed, updated};
use crate::created::created;
use crate::refused::{not_destroyed, refused};
use crate::told::Told;
use spec_json::tree::Tree;
use std::alloc::{AllocError, Global};
use time_text::state_text;

/// The arguments of the response to a set (RFC 8620 section 5.3).
pub(crate) fn response_arguments(alloc: Global, told: &Told<'_>) -> Result<Tree, AllocError>
    requires creates { length told.now.creates.now ≡ length told.now.create_outcomes.now }
    requires updates { length told.now.updates.now ≡ length told.now.update_outcomes.now }
    requires destroys { length told.now.destroys.now ≡ length told.now.destroy_outcomes.now }
    ensures { IfOk result (λ t. (g : Ground) (kind : AnyKind) (made : List (List ℕ × List ℕ)) (cs : List AnyChange) (s : Objects)
        → Tells told.now g kind made cs s → t ≡ set_arguments g kind made cs s) }
{
    let mut members = leading(alloc, told)?;
    members.append(&mut trailing(alloc, told)?)?;
    Ok(Tree::object(alloc, members)?)
}

// The arguments up to the new state, in byte order of their names.
fn leading(alloc: Global, told: &Told<'_>) -> Result<Vec<(&'static str, Tree)>, AllocError>
    requires creates { length told.now.creates.now ≡ length told.now.create_outcomes.now }
    requires destroys { length told.now.destroys.now ≡ length told.now.destroy_outcomes.now }
    ensures { IfOk result (λ ms. map keyed ms.items ≡
        (codes "accountId", text told.now.account.now)
        ∷ (codes "created", object_or_null (of_each created_member (map pair_of told.now.creates.now) told.now.create_outcomes.now))
        ∷ (codes "destroyed", list_or_null (of_each destroyed_item told.now.destroys.now told.now.destroy_outcomes.now))
        ∷ (codes "newState", text (state_text told.now.new_state)) ∷ []) }
{
    let id = Tree::Text(told.account.copy()?);
    let created = created(alloc, told.creates, told.create_outcomes)?;
    let destroyed = destroyed(alloc, told.destroys, told.destroy_outcomes)?;
    let new_state = Tree::Text(state_text(alloc, told.new_state)?);
    Ok(vec![in alloc;
        ("accountId", id),
        ("created", created),
        ("destroyed", destroyed),
        ("newState", new_state),
    ]?)
}

// The arguments after the new state, in byte order of their names.
fn trailing(alloc: Global, told: &Told<'_>) -> Result<Vec<(&'static str, Tree)>, AllocError>
    requires creates { length told.now.creates.now ≡ length told.now.create_outcomes.now }
    requires updates { length told.now.updates.now ≡ length told.now.update_outcomes.now }
    requires destroys { length told.now.destroys.now ≡ length told.now.destroy_outcomes.now }
    ensures { IfOk result (λ ms. map keyed ms.items ≡
        (codes "notCreated", object_or_null (of_each refused_member (map pair_of told.now.creates.now) told.now.create_outcomes.now))
        ∷ (codes "notDestroyed", object_or_null (of_each refused_member told.now.destroys.now told.now.destroy_outcomes.now))
        ∷ (codes "notUpdated", object_or_null (of_each refused_member (map pair_of told.now.updates.now) told.now.update_outcomes.now))
        ∷ (codes "oldState", text (state_text told.now.old_state))
        ∷ (codes "updated", object_or_null (of_each updated_member (map pair_of told.now.updates.now) told.now.update_outcomes.now)) ∷ []) }
{
    let not_created = refused(alloc, told.creates, told.create_outcomes)?;
    let not_destroyed = not_destroyed(alloc, told.destroys, told.destroy_outcomes)?;
    let not_updated = refused(alloc, told.updates, told.update_outcomes)?;
    let old_state = Tree::Text(state_text(alloc, told.old_state)?);
    let updated = updated(alloc, told.updates, told.update_outcomes)?;
    Ok(vec![in alloc;
        ("notCreated", not_created),
        ("notDestroyed", not_destroyed),
        ("notUpdated", not_updated),
        ("oldState", old_state),
        ("updated", updated),
    ]?)
}
