//! Texts of entries, with the ids of their accounts.
ghost use Rattle.std.specs.Prelude.{◌≡◌, IfOk};

use spec_history::entry::{Change, Kind};
use spec_json::text::Text;
use std::alloc::AllocError;
use std::marker::Model;

/// What the entry of a text changes: as much of it as has to be known of a text that a later one takes the place of.
#[derive(Clone, Copy, Debug, PartialEq, Eq, Drop)]
pub struct Mark {
    /// The kind of the object.
    pub kind: Kind,
    /// The number of the object.
    pub id: u64,
    /// Whether it is put, and not removed.
    pub puts: bool,
}

impl Mark {
    ghost use Rattle.std.specs.Prelude.{is_some};

    /// The mark of a change. Takes no memory.
    pub fn of(change: &Change) -> Mark
        ensures { result ≡ record { kind = change.now.kind; id = change.now.id; puts = is_some change.now.object } }
    {
        Mark {
            kind: change.kind,
            id: change.id,
            puts: change.object.is_some(),
        }
    }
}

/// The text of an entry, with the id of its account, and with what the entry changes. Contracts see the first two.
#[derive(Drop)]
pub struct KeptText {
    account: Text,
    mark: Mark,
    text: Vec<u8>,
}

impl Model for KeptText {
    ghost use Rattle.std.specs.Prelude.{ℕ, List};

    ghost Value = { List ℕ × List ℕ };

    ghost view = { λ a. (a.account, a.text.items) };
}

impl KeptText {
    /// They together. Takes no memory.
    pub fn new(account: Text, mark: Mark, text: Vec<u8>) -> KeptText
        ensures { result ≡ (account, text.items) }
    {
        KeptText {
            account,
            mark,
            text,
        }
    }

    /// What the entry changes. Takes no memory.
    pub fn mark(&self) -> Mark {
        self.mark
    }

    /// The id of the account. Takes no memory.
    pub fn account(&self) -> &str
        ensures { result.now ≡ self.now.0 }
    {
        self.account.as_str()
    }

    /// The text. Takes no memory.
    pub fn text(&self) -> &[u8]
        ensures { result.now ≡ self.now.1 }
    {
        self.text.as_slice()
    }
}
