//! Lists of recurrence rules.
ghost use Rattle.std.specs.Prelude.{◌≡◌, IfOk};

use crate::rule::Rule;
use std::alloc::{AllocError, Global};
use std::marker::Model;

/// A list of recurrence rules.
#[derive(Drop)]
pub struct Rules {
    items: Vec<Rule>,
}

impl Model for Rules {
    ghost use Rattle.std.specs.Prelude.{List};
    ghost use Rattle.spec_series.specs.declared.rule.Rule.{Rule};

    ghost Value = { List Rule };

    ghost view = { λ a. a.items.items };
}

impl Rules {
    /// A list of these rules. Takes no memory.
    pub fn new(items: Vec<Rule>) -> Rules
        ensures { result ≡ items.items }
    {
        Rules { items }
    }

    /// The rules, in order. Takes no memory.
    pub fn items(&self) -> &[Rule]
        ensures { result.now ≡ self.now }
    {
        &self.items
    }

    /// Gives an equal list.
    pub fn copy(&self, alloc: Global) -> Result<Rules, AllocError>
        ensures { IfOk result (λ rs. rs ≡ self.now) }
    {
        let mut items = Vec::new(alloc);
        for rule in &self.items {
            items.push(rule.copy()?)?;
        }
        Ok(Rules { items })
    }
}
