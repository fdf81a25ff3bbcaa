//! A site.
ghost use Rattle.spec_site.specs.declared.limits.TheConstants.{MAX_ACCOUNTS, MAX_USERS};
ghost use Rattle.std.specs.Prelude.{◌≡◌, ◌<◌, ◌≤◌, All, IfSome, length, option_map, position, slice_index_or};
ghost use Rattle.std.specs.Str.{bytes_eq};
ghost use Rattle.std.specs.Arc.{arc_value};
ghost use Rattle.spec_site.specs.Configuration.{HasItsAccounts, SiteAccount, user_at, user_named, user_of_token};

use crate::account::Account;
use crate::site_user::SiteUser;
use spec_core::user::User;
use spec_json::text::Text;
use std::marker::Model;
use std::sync::Arc;
use zone_table::Zones;

/// What a configuration tells of: the base of the server's addresses, the accounts, the users who may use them, the time zones,
/// which copy of the data the accounts go on from, and where clients find WebSockets.
#[derive(Drop)]
pub struct Site {
    base_url: Text,
    accounts: Vec<Account>,
    users: Vec<SiteUser>,
    zones: Arc<Zones>,
    generation: u64,
    web_socket_url: Option<Text>,
}

impl Model for Site {
    ghost use Rattle.spec_site.specs.declared.limits.TheConstants.{MAX_ACCOUNTS, MAX_USERS};
    ghost use Rattle.std.specs.Prelude.{◌<◌, ◌≤◌, length};
    ghost use Rattle.std.specs.Arc.{arc_value};
    ghost use Rattle.spec_site.specs.Configuration.{HasItsAccounts, Site as Described};

    ghost Value = { Described };

    ghost view = { λ a. record { base_url = a.base_url; accounts = a.accounts.items; users = a.users.items; zones = arc_value a.zones; generation = a.generation; web_socket_url = a.web_socket_url } };

    ghost invariant = { λ a. (length a.accounts.items ≤ MAX_ACCOUNTS) × (0 < length a.users.items) × (length a.users.items ≤ MAX_USERS) × HasItsAccounts (record { base_url = a.base_url; accounts = a.accounts.items; users = a.users.items; zones = arc_value a.zones; generation = a.generation; web_socket_url = a.web_socket_url }) };
}

impl Site {
    /// A site of these parts. Takes no memory.
    pub(crate) fn new(
        base_url: Text,
        accounts: Vec<Account>,
        users: Vec<SiteUser>,
        zones: Arc<Zones>,
        generation: u64,
        web_socket_url: Option<Text>,
    ) -> Site
        requires few_accounts { length accounts.items ≤ MAX_ACCOUNTS }
        requires some_users { 0 < length users.items }
        requires few_users { length users.items ≤ MAX_USERS }
        requires granted { HasItsAccounts (record { base_url = base_url; accounts = accounts.items; users = users.items; zones = arc_value zones; generation = generation; web_socket_url = web_socket_url }) }
        ensures { result ≡ record { base_url = base_url; accounts = accounts.items; users = users.items; zones = arc_value zones; generation = generation; web_socket_url = web_socket_url } }
    {
        Site {
            base_url,
            accounts,
            users,
            zones,
            generation,
            web_socket_url,
        }
    }

    /// The number of the user whose bearer token this is, from 0. Takes no memory.
    pub fn user_of(&self, token: &Text) -> Option<u32>
        ensures number { result ≡ user_of_token self.now token.now }
        ensures there { IfSome result (λ n. n < length self.now.users) }
    {
        match place_of_token(&self.users, token.as_str()) {
            Some(n) => Some(n as u32),
            None => None,
        }
    }

    /// The number of the user of this name, from 0. Takes no memory.
    pub fn user_named(&self, name: &str) -> Option<u32>
        ensures number { result ≡ user_named self.now name.now }
        ensures there { IfSome result (λ n. n < length self.now.users) }
    {
        match place_of_name(&self.users, name) {
            Some(n) => Some(n as u32),
            None => None,
        }
    }

    /// How many users there are, at most 64. Takes no memory.
    pub fn users(&self) -> u32
        ensures { result ≡ length self.now.users }
    {
        self.users.len() as u32
    }

    /// How many accounts there are, at most 16. Takes no memory.
    pub fn accounts(&self) -> u32
        ensures { result ≡ length self.now.accounts }
    {
        self.accounts.len() as u32
    }

    /// The user of a number, from 0. Takes no memory.
    pub fn user(&self, n: u32) -> &User
        requires { n < length self.now.users }
        ensures value { result.now ≡ user_at self.now n }
        ensures granted { All (λ g. g.account < length self.now.accounts) result.now.grants }
    {
        self.users[n as usize].user()
    }

    /// The id of the account of a number, from 0 (RFC 8620 section 1.6.2). Takes no memory.
    pub fn account_id(&self, n: u32) -> &Text
        requires { n < length self.now.accounts }
        ensures { (d : SiteAccount) → result.now ≡ (slice_index_or self.now.accounts n d).id }
    {
        self.accounts[n as usize].id()
    }

    /// The name of the account of a number, from 0. Takes no memory.
    pub(crate) fn account_name(&self, n: u32) -> &Text
        requires { n < length self.now.accounts }
        ensures { (d : SiteAccount) → result.now ≡ (slice_index_or self.now.accounts n d).name }
    {
        self.accounts[n as usize].name()
    }

    /// The time zones. Takes no memory.
    pub fn zones(&self) -> &Arc<Zones>
        ensures { arc_value result.now ≡ self.now.zones }
    {
        &self.zones
    }

    /// Which copy of the data the accounts go on from. Takes no memory.
    pub fn generation(&self) -> u64
        ensures { result ≡ self.now.generation }
    {
        self.generation
    }

    /// What the server's addresses begin with. Takes no memory.
    pub(crate) fn base_url(&self) -> &Text
        ensures { result.now ≡ self.now.base_url }
    {
        &self.base_url
    }

    /// Where clients find WebSockets (RFC 8887 section 3), if they are to find them. Takes no memory.
    pub(crate) fn web_socket_url(&self) -> Option<&Text>
        ensures { option_map (λ url. url.now) result ≡ self.now.web_socket_url }
    {
        self.web_socket_url.as_ref()
    }
}

fn place_of_token(users: &[SiteUser], token: &str) -> Option<usize>
    ensures place { result ≡ position (λ u. bytes_eq u.token token.now) users.now }
    ensures there { IfSome result (λ n. n < length users.now) }
{
    users.iter().position(|user| user.token().as_str() == token)
}

fn place_of_name(users: &[SiteUser], name: &str) -> Option<usize>
    ensures place { result ≡ position (λ u. bytes_eq u.user.name name.now) users.now }
    ensures there { IfSome result (λ n. n < length users.now) }
{
    users
        .iter()
        .position(|user| user.user().name.as_str() == name)
}
