//! The updates and destroys of a set, in order.
ghost use Rattle.std.specs.Prelude.{◌≡◌, [], IfOk, map};
ghost use Rattle.cal_model.specs.Operations.{destroy};
ghost use Rattle.cal_model.specs.Sets.{updates_after};
ghost use Rattle.spec_json.specs.TreeData.{pair_of};
ghost use Rattle.object_outcomes.specs.Judging.{operation_in};

use crate::named_id::{NamedId, names_id};
use object_outcomes::created_ids::CreatedIds;
use object_outcomes::operation::Operation;
use spec_json::tree::Member;
use std::alloc::{AllocError, Global};

/// The updates of a set, each with whether its object is among those to be destroyed, and whether one before it names the
/// same. Takes time with the square of their number.
pub(crate) fn update_operations<'a>(
    alloc: Global,
    created: &'a CreatedIds,
    destroyed: &[NamedId<'a>],
    members: &'a [Member],
) -> Result<Vec<Operation<'a>>, AllocError>
    ensures { IfOk result (λ v. map operation_in v.items ≡ updates_after created.now destroyed.now [] (map pair_of members.now)) }
{
    let mut operations = Vec::with_capacity(alloc, members.len())?;
    let mut earlier = Vec::with_capacity(alloc, members.len())?;
    for member in members {
        let id = created.resolved(&member.key);
        operations.push(Operation::Update {
            id,
            patch: &member.value,
            is_destroyed: names_id(destroyed, id),
            is_repeated: names_id(&earlier, id),
        })?;
        earlier.push(NamedId::new(&member.key, id))?;
    }
    Ok(operations)
}

/// The destroys of a set.
pub(crate) fn destroy_operations<'a>(
    alloc: Global,
    named: &[NamedId<'a>],
) -> Result<Vec<Operation<'a>>, AllocError>
    ensures { IfOk result (λ v. map operation_in v.items ≡ map (λ q. destroy q.1) named.now) }
{
    let mut operations = Vec::with_capacity(alloc, named.len())?;
    for named in named {
        operations.push(Operation::Destroy(named.id()))?;
    }
    Ok(operations)
}
