//! The objects that a set names.
ghost use Rattle.std.specs.Prelude.{◌≡◌, map};
ghost use Rattle.cal_model.specs.Sets.{objects_of};
ghost use Rattle.spec_json.specs.TreeData.{pair_of};

use spec_calls::call::SetArguments;
use spec_json::text::Text;
use spec_json::tree::Member;

/// The creation ids, each with its object. Takes no memory.
pub(crate) fn creates(arguments: &SetArguments) -> &[Member]
    ensures { map pair_of result.now ≡ (objects_of arguments.now).creates }
{
    match &arguments.create {
        Some(objects) => objects.members(),
        None => &[],
    }
}

/// The ids of the objects to be updated, each with its patch. Takes no memory.
pub(crate) fn updates(arguments: &SetArguments) -> &[Member]
    ensures { map pair_of result.now ≡ (objects_of arguments.now).updates }
{
    match &arguments.update {
        Some(patches) => patches.members(),
        None => &[],
    }
}

/// The ids of the objects to be destroyed. Takes no memory.
pub(crate) fn destroys(arguments: &SetArguments) -> &[Text]
    ensures { result.now ≡ (objects_of arguments.now).destroys }
{
    match &arguments.destroy {
        Some(ids) => ids.items(),
        None => &[],
    }
}
