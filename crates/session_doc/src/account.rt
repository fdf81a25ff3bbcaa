//! An account of a site.
ghost use Rattle.std.specs.Prelude.{◌≡◌};

use spec_json::text::Text;
use std::marker::Model;

/// An account: its id and its name.
#[derive(Drop)]
pub(crate) struct Account {
    id: Text,
    name: Text,
}

impl Model for Account {
    ghost use Rattle.spec_site.specs.Configuration.{SiteAccount};

    ghost Value = { SiteAccount };

    ghost view = { λ a. record { id = a.id; name = a.name } };
}

impl Account {
    /// An account of this id (RFC 8620 section 1.2) and name. Takes no memory.
    pub(crate) fn new(id: Text, name: Text) -> Account
        ensures { result ≡ record { id = id; name = name } }
    {
        Account { id, name }
    }

    /// The account's id. Takes no memory.
    pub(crate) fn id(&self) -> &Text
        ensures { result.now ≡ self.now.id }
    {
        &self.id
    }

    /// The account's name. Takes no memory.
    pub(crate) fn name(&self) -> &Text
        ensures { result.now ≡ self.now.name }
    {
        &self.name
    }
}
