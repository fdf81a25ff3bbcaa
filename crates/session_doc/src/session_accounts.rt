//! The accounts of a session object.
ghost use Rattle.std.specs.Prelude.{◌≡◌, ◌<◌, [], All, IfOk, length};
ghost use Rattle.spec_json.specs.Edit.{put_all};
ghost use Rattle.spec_site.specs.SessionObject.{account_members, account_object};
ghost use Rattle.spec_json.specs.TreeData.{data_of};

use crate::capabilities::account_capabilities;
use crate::site::Site;
use spec_core::user::Grant;
use spec_json::tree::{Tree, TreeObject};
use std::alloc::{AllocError, Global};

/// The granted accounts by id, of which the first is the user's own. Takes memory for them.
#[tactic(auto, using(crate::proofs::SessionMembers::from_first))]
pub(crate) fn accounts_object(
    alloc: Global,
    site: &Site,
    grants: &[Grant],
) -> Result<TreeObject, AllocError>
    requires { All (λ g. g.account < length site.now.accounts) grants.now }
    ensures { IfOk result (λ members. members ≡ put_all (account_members site.now grants.now) []) }
{
    let mut accounts = TreeObject::new(Vec::new(alloc));
    let mut is_first = true;
    for grant in grants {
        let account = account_tree(alloc, site, grant, is_first)?;
        accounts.put(grant.id.copy()?, account)?;
        is_first = false;
    }
    Ok(accounts)
}

fn account_tree(
    alloc: Global,
    site: &Site,
    grant: &Grant,
    is_first: bool,
) -> Result<Tree, AllocError>
    requires { grant.now.account < length site.now.accounts }
    ensures { IfOk result (λ tree. data_of tree ≡ account_object site.now is_first grant.now) }
{
    let name = Tree::Text(site.account_name(grant.account).copy()?);
    let members = vec![in alloc;
        ("accountCapabilities", account_capabilities(alloc)?),
        ("isPersonal", Tree::Truth(is_first)),
        ("isReadOnly", Tree::Truth(grant.read_only)),
        ("name", name),
    ]?;
    Tree::object(alloc, members)
}
