//! Session objects.
ghost use Rattle.std.specs.Prelude.{◌≡◌, ◌<◌, ◌∷◌, ◌++◌, [], All, IfOk, codes, length, map};
ghost use Rattle.spec_json.specs.Data.{members_of, object, text};
ghost use Rattle.spec_json.specs.Edit.{put_all};
ghost use Rattle.spec_site.specs.Configuration.{Site as SiteRecord, user_at};
ghost use Rattle.spec_site.specs.SessionObject.{account_members, capabilities, primary_accounts, session_object};
ghost use Rattle.spec_json.specs.TreeData.{data_of, keyed};

use crate::capabilities::capabilities;
use crate::session_accounts::accounts_object;
use crate::site::Site;
use spec_core::capability::{AVAILABILITY, CALENDARS, SLOTS};
use spec_core::user::Grant;
use spec_json::text::Text;
use spec_json::tree::{Tree, TreeObject};
use std::alloc::{AllocError, Global};

impl Site {
    /// The session object of the user of a number (RFC 8620 section 2). Takes memory for it.
    pub fn session_tree(&self, alloc: Global, user: u32) -> Result<Tree, AllocError>
        requires { user < length self.now.users }
        ensures { IfOk result (λ tree. data_of tree ≡ session_object self.now (user_at self.now user)) }
    {
        let user = self.user(user);
        let base = self.base_url();
        let grants = user.grants.items();
        let mut members = leading(alloc, self, base, grants)?;
        members.append(&mut trailing(alloc, base, grants, &user.name)?)?;
        Tree::object(alloc, members)
    }
}

// The members up to the address of downloads, in byte order of their names.
fn leading(
    alloc: Global,
    site: &Site,
    base: &Text,
    grants: &[Grant],
) -> Result<Vec<(&'static str, Tree)>, AllocError>
    requires { All (λ g. g.account < length site.now.accounts) grants.now }
    ensures { IfOk result (λ ms. map keyed ms.items ≡
        (codes "accounts", object (members_of (put_all (account_members site.now grants.now) [])))
        ∷ (codes "apiUrl", text (base.now ++ codes "/jmap"))
        ∷ (codes "capabilities", capabilities site.now.web_socket_url)
        ∷ (codes "downloadUrl", text (base.now ++ codes "/download/{accountId}/{blobId}/{name}?accept={type}")) ∷ []) }
{
    let accounts = Tree::Object(accounts_object(alloc, site, grants)?);
    let api = address(alloc, base, "/jmap")?;
    let known = capabilities(alloc, site.web_socket_url())?;
    let download = address(
        alloc,
        base,
        "/download/{accountId}/{blobId}/{name}?accept={type}",
    )?;
    let members = vec![in alloc;
        ("accounts", accounts),
        ("apiUrl", api),
        ("capabilities", known),
        ("downloadUrl", download),
    ]?;
    Ok(members)
}

// The members after the address of downloads, in byte order of their names.
fn trailing(
    alloc: Global,
    base: &Text,
    grants: &[Grant],
    name: &Text,
) -> Result<Vec<(&'static str, Tree)>, AllocError>
    ensures { (site : SiteRecord) → IfOk result (λ ms. map keyed ms.items ≡
        (codes "eventSourceUrl", text (base.now ++ codes "/events?types={types}&closeafter={closeafter}&ping={ping}"))
        ∷ (codes "primaryAccounts", primary_accounts site grants.now)
        ∷ (codes "state", text (codes "1"))
        ∷ (codes "uploadUrl", text (base.now ++ codes "/upload/{accountId}"))
        ∷ (codes "username", text name.now) ∷ []) }
{
    let events = address(
        alloc,
        base,
        "/events?types={types}&closeafter={closeafter}&ping={ping}",
    )?;
    let primary = primary_accounts(alloc, grants)?;
    let state = Tree::Text(Text::from_str(alloc, "1")?);
    let upload = address(alloc, base, "/upload/{accountId}")?;
    let name = Tree::Text(name.copy()?);
    let members = vec![in alloc;
        ("eventSourceUrl", events),
        ("primaryAccounts", primary),
        ("state", state),
        ("uploadUrl", upload),
        ("username", name),
    ]?;
    Ok(members)
}

// An address: the base, and a path or a template of one (RFC 6570).
fn address(alloc: Global, base: &Text, path: &str) -> Result<Tree, AllocError>
    ensures { IfOk result (λ tree. data_of tree ≡ text (base.now ++ path.now)) }
{
    let mut address = String::from_str(alloc, base.as_str())?;
    address.push_str(path)?;
    Ok(Tree::Text(Text::from_string(address)?))
}

// The capabilities of accounts, each with the id of the user's first account.
fn primary_accounts(alloc: Global, grants: &[Grant]) -> Result<Tree, AllocError>
    ensures { (site : SiteRecord) → IfOk result (λ tree. data_of tree ≡ primary_accounts site grants.now) }
{
    match grants {
        [] => Ok(Tree::Object(TreeObject::new(Vec::new(alloc)))),
        [grant, ..] => {
            let calendars = Tree::Text(grant.id.copy()?);
            let availability = Tree::Text(grant.id.copy()?);
            let slots = Tree::Text(grant.id.copy()?);
            let members = vec![in alloc;
                (SLOTS, slots),
                (CALENDARS, calendars),
                (AVAILABILITY, availability),
            ]?;
            Tree::object(alloc, members)
        }
    }
}
