//! A user of a site.
ghost use Rattle.std.specs.Prelude.{◌≡◌};

use spec_core::user::User;
use spec_json::text::Text;
use std::marker::Model;

/// A user, with the bearer token that shows a request to be of theirs (RFC 6750 section 2.1).
#[derive(Drop)]
pub(crate) struct SiteUser {
    token: Text,
    user: User,
}

impl Model for SiteUser {
    ghost use Rattle.spec_site.specs.Configuration.{SiteUser as UserWithToken};

    ghost Value = { UserWithToken };

    ghost view = { λ a. record { token = a.token; user = a.user } };
}

impl SiteUser {
    /// A user with this token. Takes no memory.
    pub(crate) fn new(token: Text, user: User) -> SiteUser
        ensures { result ≡ record { token = token; user = user } }
    {
        SiteUser { token, user }
    }

    /// The user's token. Takes no memory.
    pub(crate) fn token(&self) -> &Text
        ensures { result.now ≡ self.now.token }
    {
        &self.token
    }

    /// The user. Takes no memory.
    pub(crate) fn user(&self) -> &User
        ensures { result.now ≡ self.now.user }
    {
        &self.user
    }
}
