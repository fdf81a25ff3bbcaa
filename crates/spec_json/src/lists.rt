//! Lists that calls, replies and requests hold.
ghost use Rattle.std.specs.Prelude.{◌≡◌};

use crate::text::Text;
use std::marker::Model;

/// A list of texts.
#[derive(Drop)]
pub struct Texts {
    items: Vec<Text>,
}

impl Model for Texts {
    ghost use Rattle.std.specs.Prelude.{List, ℕ};

    ghost Value = { List (List ℕ) };

    ghost view = { λ a. a.items.items };
}

impl Texts {
    /// A list of these texts. Takes no memory.
    pub fn new(items: Vec<Text>) -> Texts
        ensures { result ≡ items.items }
    {
        Texts { items }
    }

    /// The texts, in order. Takes no memory.
    pub fn items(&self) -> &Vec<Text>
        ensures { result.now.items ≡ self.now }
    {
        &self.items
    }
}

/// A list of pairs of texts, as of creation ids and the ids that the server gave (RFC 8620 section 3.3).
#[derive(Drop)]
pub struct Pairs {
    pairs: Vec<(Text, Text)>,
}

impl Model for Pairs {
    ghost use Rattle.std.specs.Prelude.{List, ℕ};

    ghost Value = { List (List ℕ × List ℕ) };

    ghost view = { λ a. a.pairs.items };
}

impl Pairs {
    /// A list of these pairs. Takes no memory.
    pub fn new(pairs: Vec<(Text, Text)>) -> Pairs
        ensures { result ≡ pairs.items }
    {
        Pairs { pairs }
    }

    /// Gives the pairs up, in order. Takes no memory.
    pub fn into_pairs(self) -> Vec<(Text, Text)>
        ensures { result.items ≡ self }
    {
        self.pairs
    }

    /// The pairs, in order. Takes no memory.
    pub fn pairs(&self) -> &Vec<(Text, Text)>
        ensures { result.now.items ≡ self.now }
    {
        &self.pairs
    }
}
