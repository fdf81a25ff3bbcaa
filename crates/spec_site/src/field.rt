//! The fields of a configuration.
ghost use Rattle.std.specs.Prelude.{◌≡◌};
ghost use Rattle.spec_site.specs.Configuration.{field_name};

/// A field of a configuration, in the order in which they are read.
#[derive(Clone, Copy, Debug, PartialEq, Eq, Drop)]
pub enum Field {
    /// The whole: a JSON object of at most 1,000,000 bytes, whose numbers are whole.
    Json,
    /// `baseUrl`: what the addresses of the session object begin with.
    BaseUrl,
    /// `accounts`: the accounts, by id and name.
    Accounts,
    /// `users`: the users, each with a name, a bearer token and the accounts that they may use.
    Users,
    /// `zones`: the time zones, by name and POSIX rule.
    Zones,
    /// `generation`: which copy of the data the accounts go on from.
    Generation,
    /// `webSocketUrl`: where clients find WebSockets.
    WebSocketUrl,
}

impl Field {
    /// The member of a configuration that the field is, and `json` for the whole. Takes no memory.
    pub fn name(self) -> &'static str
        ensures { result.now ≡ field_name self }
    {
        match self {
            Field::Json => "json",
            Field::BaseUrl => "baseUrl",
            Field::Accounts => "accounts",
            Field::Users => "users",
            Field::Zones => "zones",
            Field::Generation => "generation",
            Field::WebSocketUrl => "webSocketUrl",
        }
    }
}
