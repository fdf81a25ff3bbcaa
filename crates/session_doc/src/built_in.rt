//! The site without a configuration.
ghost use Rattle.std.specs.Prelude.{◌≡◌, ◌∷◌, [], IfOk, codes, false};
ghost use Rattle.spec_site.specs.Configuration.{built_in};

use crate::account::Account;
use crate::site::Site;
use crate::site_user::SiteUser;
use spec_core::user::{Grant, Grants, User};
use spec_json::text::Text;
use std::alloc::{AllocError, Global};
use std::sync::Arc;
use zone_table::{ZoneError, Zones};

impl Site {
    /// The site without a configuration: the user `local`, whose token is `local`, with the account `A1`.
    ///
    /// Takes memory for the site.
    pub fn built_in(alloc: Global) -> Result<Site, AllocError>
        ensures { IfOk result (λ site. site ≡ built_in) }
    {
        let base_url = Text::from_str(alloc, "http://localhost")?;
        let id = Text::from_str(alloc, "A1")?;
        let account = Account::new(id, Text::from_str(alloc, "local")?);
        let accounts = vec![in alloc; account]?;
        let users = vec![in alloc; local_user(alloc)?]?;
        let zones = Arc::new(alloc, no_zones(alloc)?)?;
        Ok(Site::new(base_url, accounts, users, zones, 0, None))
    }
}

fn local_user(alloc: Global) -> Result<SiteUser, AllocError>
    ensures { IfOk result (λ user. user ≡ record { token = codes "local"; user = record { name = codes "local"; grants = record { account = 0; id = codes "A1"; read_only = false } ∷ [] } }) }
{
    let grant = Grant {
        account: 0,
        id: Text::from_str(alloc, "A1")?,
        read_only: false,
    };
    let user = User {
        name: Text::from_str(alloc, "local")?,
        grants: Grants::new(vec![in alloc; grant]?),
    };
    Ok(SiteUser::new(Text::from_str(alloc, "local")?, user))
}

fn no_zones(alloc: Global) -> Result<Zones, AllocError>
    ensures { IfOk result (λ zones. zones ≡ []) }
{
    match Zones::read(alloc, &[]) {
        Ok(zones) => Ok(zones),
        Err(ZoneError::BadZone { .. }) => unreachable!(),
        Err(ZoneError::NoMemory) => Err(AllocError),
    }
}
