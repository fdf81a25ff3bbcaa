//! Users, and the accounts that they may use.
ghost use Rattle.std.specs.Prelude.{◌≡◌};

use spec_json::text::Text;
use std::marker::Model;

/// Leave to use an account.
#[derive(Drop)]
pub struct Grant {
    /// The number of the account, from 0.
    pub account: u32,
    /// The account's id (RFC 8620 section 1.6.2).
    pub id: Text,
    /// Whether the user may only read.
    pub read_only: bool,
}

/// The grants of a user, in order.
#[derive(Drop)]
pub struct Grants {
    items: Vec<Grant>,
}

impl Model for Grants {
    ghost use Rattle.std.specs.Prelude.{List};
    ghost use Rattle.spec_core.specs.declared.user.Grant.{Grant};

    ghost Value = { List Grant };

    ghost view = { λ a. a.items.items };
}

impl Grants {
    /// A list of these grants. Takes no memory.
    pub fn new(items: Vec<Grant>) -> Grants
        ensures { result ≡ items.items }
    {
        Grants { items }
    }

    /// The grants, in order. Takes no memory.
    pub fn items(&self) -> &Vec<Grant>
        ensures { result.now.items ≡ self.now }
    {
        &self.items
    }
}

/// A user, for whom requests are answered.
#[derive(Drop)]
pub struct User {
    /// The user's name.
    pub name: Text,
    /// The accounts that the user may use.
    pub grants: Grants,
}
