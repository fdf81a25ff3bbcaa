//! Arguments that are too many references, or given both as a value and as a reference.
ghost use Rattle.std.specs.Prelude.{◌≡◌, map};
ghost use Rattle.std.specs.List.{list_any};
ghost use Rattle.spec_batch.specs.References.{has_both_forms, has_too_many};
ghost use Rattle.spec_json.specs.TreeData.{pair_of};
ghost use Rattle.result_refs.specs.Walk.{begins_with, from_key};

use crate::behind_sign::behind;
use spec_batch::limits::MAX_REFERENCES;
use spec_json::tree::{Member, TreeObject};

/// Whether more arguments are references than a call may have. Takes no memory.
pub(crate) fn has_too_many(arguments: &TreeObject) -> bool
    ensures { result ≡ has_too_many arguments.now }
{
    let mut count = 0;
    for member in arguments.members() {
        if behind(member.key.as_str(), '#').is_some() {
            count += 1;
        }
    }
    count > MAX_REFERENCES
}

/// Whether an argument is given both as a value and as a reference. Takes no memory.
///
/// The keys behind the `#`s rise as the keys do, so both are gone over once.
pub(crate) fn has_both_forms(arguments: &TreeObject) -> bool
    ensures { result ≡ list_any (λ p. has_both_forms arguments.now p) arguments.now }
{
    let mut rest: &[Member] = arguments.members();
    for member in arguments.members() {
        if let Some(key) = behind(member.key.as_str(), '#') {
            rest = from_key(rest, key);
            if begins_with(rest, key) {
                return true;
            }
        }
    }
    false
}

// The members from the first on whose key isn't below this one.
fn from_key<'a>(members: &'a [Member], key: &str) -> &'a [Member]
    ensures { map pair_of result.now ≡ from_key key.now (map pair_of members.now) }
{
    let mut i = 0;
    while i < members.len() && members[i].key.as_str() < key {
        i += 1;
    }
    &members[i..]
}

fn begins_with(members: &[Member], key: &str) -> bool
    ensures { result ≡ begins_with key.now (map pair_of members.now) }
{
    match members.first() {
        Some(member) => member.key.as_str() == key,
        None => false,
    }
}
